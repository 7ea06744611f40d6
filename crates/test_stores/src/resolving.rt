//! Commits that fail once, and what became of them.

use crate::runs::disk;
use std::alloc::Global;
use std::process::Abort;
use store_core::outcome::Outcome;
use store_core::resolved::commit_resolved;
use store_core::store::Store;
use store_memory::memory_disk::{Faults, MemoryDisk};
use store_model::fault::StoreFault;

fn holds(store: &mut Store<MemoryDisk>, bytes: &[u8]) -> bool {
    store.holds(bytes) == Ok(true)
}

/// Whether a store has the document that an outcome tells, and no other.
fn is_so(store: &mut Store<MemoryDisk>, outcome: Outcome) -> bool {
    match outcome {
        Outcome::Kept => holds(store, b"another") && !holds(store, b"old"),
        Outcome::Lost(fault) => {
            fault == StoreFault::Device && holds(store, b"old") && !holds(store, b"another")
        }
    }
}

/// Whether a disk, once it fails no more, opens to the document that an outcome tells.
fn opens_so(alloc: Global, disk: MemoryDisk, outcome: Outcome) -> bool {
    let mut disk = disk;
    disk.set_faults(Faults::Never);
    match Store::open(alloc, disk) {
        Ok(mut store) => is_so(&mut store, outcome),
        Err(_) => false,
    }
}

/// How a run ended.
#[derive(Clone, Copy, PartialEq, Eq)]
enum Ended {
    /// The open before the commit failed.
    Unopened,
    /// No call failed.
    Whole,
    /// A call failed, and the bytes are the document.
    Kept,
    /// A call failed, and they aren't.
    Lost,
    /// Not as it was told.
    Badly,
}

/// How a commit ends that a store takes.
fn resolves(alloc: Global, store: Store<MemoryDisk>) -> Ended {
    match commit_resolved(store, b"another") {
        Ok((outcome, store)) => {
            let disk = store.into_disk();
            let whole = disk.failures() == 0;
            if !opens_so(alloc, disk, outcome) {
                return Ended::Badly;
            }
            match outcome {
                Outcome::Kept if whole => Ended::Whole,
                Outcome::Kept => Ended::Kept,
                Outcome::Lost(_) => Ended::Lost,
            }
        }
        Err(_) => Ended::Badly,
    }
}

/// With one call that fails after so many.
fn run(rt: &impl Abort, alloc: Global, calls: u64) -> Ended {
    let mut found = disk(rt, alloc, b"old", b"");
    found.set_faults(Faults::Once(calls));
    match Store::open(alloc, found) {
        Ok(store) => resolves(alloc, store),
        Err(_) => Ended::Unopened,
    }
}

/// Whether a run with some number of calls before the one that fails ends so.
fn some_ends(rt: &impl Abort, alloc: Global, how: Ended) -> bool {
    for calls in 0..40u64 {
        if run(rt, alloc, calls) == how {
            return true;
        }
    }
    false
}

#[test]
fn a_commit_that_fails_once_ends_as_it_is_told(rt: HostRuntime) {
    let alloc = rt.alloc();
    assert!(rt; !some_ends(&rt, alloc, Ended::Badly));
    assert!(rt; some_ends(&rt, alloc, Ended::Lost));
    assert!(rt; some_ends(&rt, alloc, Ended::Kept));
    assert!(rt; some_ends(&rt, alloc, Ended::Whole));
}
