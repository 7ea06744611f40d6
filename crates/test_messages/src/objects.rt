//! Objects that are handed in with calls.

use object_core::embedded::Embedded;
use object_core::tally::Tally;
use object_kinds::note::Note;
use object_kinds::table::Table;
use std::alloc::Global;
use std::process::Abort;

fn share(rt: &impl Abort, tally: &Tally) -> Tally {
    tally.share().expect(rt, "memory")
}

fn note(rt: &impl Abort, alloc: Global, tally: Tally) -> Box<dyn Embedded> {
    Box::new(alloc, Note::new(alloc, tally)).expect(rt, "memory")
}

fn table(rt: &impl Abort, alloc: Global, tally: Tally) -> Box<dyn Embedded> {
    Box::new(alloc, Table::new(alloc, tally)).expect(rt, "memory")
}

/// `note`, `table`, or `-` for none.
pub(crate) fn handed(
    rt: &impl Abort,
    alloc: Global,
    tally: &Tally,
    name: &str,
) -> Option<Box<dyn Embedded>> {
    match name.as_bytes() {
        [b'n', ..] => Some(note(rt, alloc, share(rt, tally))),
        [b't', ..] => Some(table(rt, alloc, share(rt, tally))),
        _ => None,
    }
}
