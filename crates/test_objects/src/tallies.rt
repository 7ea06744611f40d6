//! Tallies: each object tells its own once, as it is dropped.

use crate::objects::{drawing, note, table};
use crate::texts::halves;
use object_core::embedded::Embedded;
use object_core::tally::Tally;
use std::alloc::{AllocError, Global};
use std::process::Abort;
use test_marks::marks::{begin, end};

/// Edits an object, and drops it where the edit is refused.
fn edited(alloc: Global, mut object: Box<dyn Embedded>, edit: &[u8]) -> Option<Box<dyn Embedded>> {
    match object.edit(alloc, edit) {
        Ok(()) => Some(object),
        Err(_) => None,
    }
}

/// Of two objects the second is dropped as its edit is refused, and the first behind it.
fn are_counted(
    alloc: Global,
    tally: &Tally,
    first: Box<dyn Embedded>,
    second: Box<dyn Embedded>,
    edits: &str,
) -> bool {
    let before = tally.count();
    let (good, bad) = halves(edits, "|");
    let first = edited(alloc, first, good.as_bytes());
    let both = first.is_some() && is_past(tally, before, 0);
    let second = edited(alloc, second, bad.as_bytes());
    let one = second.is_none() && is_past(tally, before, 1);
    drop(first);
    both && one && is_past(tally, before, 2)
}

fn is_past(tally: &Tally, before: u32, count: u32) -> bool {
    tally.count().checked_sub(before) == Some(count)
}

/// A kind, an edit that it takes, and one that it doesn't.
const KINDS: &str = "note i 0 ab|d 0 2
table s A1 x|c A1
drawing b 0 0 3 2|r 1";

fn object(rt: &impl Abort, alloc: Global, tally: &Tally, kind: &str) -> Box<dyn Embedded> {
    match kind {
        "note" => note(rt, alloc, tally),
        "table" => table(rt, alloc, tally),
        _ => drawing(rt, alloc, tally),
    }
}

fn is_counted(rt: &impl Abort, alloc: Global, row: &str) -> bool {
    let (kind, edits) = halves(row, " ");
    let tally = Tally::new(alloc).expect(rt, "memory");
    let first = object(rt, alloc, &tally, kind);
    let second = object(rt, alloc, &tally, kind);
    are_counted(alloc, &tally, first, second, edits)
}

#[test]
fn each_object_is_counted_once(rt: HostRuntime) {
    for row in KINDS.split('\n') {
        assert!(rt; is_counted(&rt, rt.alloc(), row), "{row}");
    }
}

fn new_once(alloc: Global) -> Result<Tally, AllocError> {
    begin(alloc);
    let tally = Tally::new(alloc);
    end(alloc);
    tally
}

/// A tally, made again where memory is refused.
fn new_tally(rt: &impl Abort, alloc: Global) -> Tally {
    match new_once(alloc) {
        Ok(tally) => tally,
        Err(_) => new_once(alloc).expect(rt, "memory"),
    }
}

fn share_once(alloc: Global, tally: &Tally) -> Result<Tally, AllocError> {
    begin(alloc);
    let other = tally.share();
    end(alloc);
    other
}

/// The same tally, shared again where memory is refused.
fn share(rt: &impl Abort, alloc: Global, tally: &Tally) -> Tally {
    match share_once(alloc, tally) {
        Ok(other) => other,
        Err(_) => share_once(alloc, tally).expect(rt, "memory"),
    }
}

#[test]
fn a_tally_is_shared(rt: HostRuntime) {
    let tally = new_tally(&rt, rt.alloc());
    let other = share(&rt, rt.alloc(), &tally);
    assert!(rt; other.count() == 0);
    other.raise();
    tally.raise();
    drop(other);
    assert!(rt; tally.count() == 2);
}
