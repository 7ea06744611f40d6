//! New objects of the three kinds.

use object_core::embedded::Embedded;
use object_core::tally::Tally;
use object_kinds::drawing::Drawing;
use object_kinds::note::Note;
use object_kinds::table::Table;
use std::alloc::Global;
use std::process::Abort;

pub(crate) fn note(rt: &impl Abort, alloc: Global, tally: &Tally) -> Box<dyn Embedded> {
    let tally = tally.share().expect(rt, "memory");
    Box::new(alloc, Note::new(alloc, tally)).expect(rt, "memory")
}

pub(crate) fn table(rt: &impl Abort, alloc: Global, tally: &Tally) -> Box<dyn Embedded> {
    let tally = tally.share().expect(rt, "memory");
    Box::new(alloc, Table::new(alloc, tally)).expect(rt, "memory")
}

pub(crate) fn drawing(rt: &impl Abort, alloc: Global, tally: &Tally) -> Box<dyn Embedded> {
    let tally = tally.share().expect(rt, "memory");
    Box::new(alloc, Drawing::new(alloc, tally)).expect(rt, "memory")
}
