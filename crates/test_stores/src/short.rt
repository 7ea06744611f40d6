//! A disk over files whose calls do less than they are asked, and fail in turn. Where a write or a sync failed, each
//! later sync of the files lies.

use crate::crashes::{opens_to_either, opens_with_any};
use crate::runs::{disk, document};
use std::alloc::Global;
use std::process::Abort;
use store_core::refused::Refused;
use store_core::store::Store;
use store_disk::file_disk::FileDisk;
use store_files::memory_files::MemoryFiles;
use store_files::stores;
use store_memory::memory_disk::{Faults, MemoryDisk};
use store_model::area::Area;
use store_model::disk::Disk;

/// More calls than any of these runs makes.
const MANY: u64 = 1_000;

fn over(disk: MemoryDisk, most: usize) -> FileDisk<MemoryFiles> {
    FileDisk::new(MemoryFiles::new(disk, most))
}

/// Commits bytes to a store that is open. Gives whether it was done, and the disk in memory.
fn commit_to(mut store: Store<FileDisk<MemoryFiles>>, bytes: &[u8]) -> (bool, MemoryDisk) {
    let is_done = stores::commit(&mut store, bytes).is_ok();
    (is_done, store.into_disk().into_files().into_disk())
}

/// Opens a store over files with these failures, and commits bytes. Gives whether all was done, and the disk, healed.
fn commit(
    alloc: Global,
    mut from: MemoryDisk,
    most: usize,
    bytes: &[u8],
    faults: Faults,
) -> (bool, MemoryDisk) {
    from.set_faults(faults);
    let (is_done, mut disk) = match stores::open(alloc, over(from, most)) {
        Ok(store) => commit_to(store, bytes),
        Err(Refused { disk, .. }) => (false, disk.into_files().into_disk()),
    };
    disk.set_faults(Faults::Never);
    (is_done, disk)
}

/// What a run left.
#[derive(Clone, Copy, PartialEq, Eq)]
enum Left {
    /// No call failed, and the document is the new one.
    Whole,
    /// A call failed, and the document is the new one.
    New,
    /// A call failed, and the document is the one from before.
    Old,
    /// Something else, there or after a crash.
    Neither,
}

/// What a disk holds where nothing crashed.
fn held(alloc: Global, disk: MemoryDisk, is_done: bool, old: &[u8], new: &[u8]) -> Left {
    match document(alloc, disk) {
        Ok(found) if found.as_slice() == new => { if is_done { Left::Whole } else { Left::New } }
        Ok(found) if found.as_slice() == old && !is_done => Left::Old,
        _ => Left::Neither,
    }
}

/// A commit with these failures: what it left, at each crash point too where none came, else at the last.
fn run(
    rt: &impl Abort,
    alloc: Global,
    old: &[u8],
    new: &[u8],
    most: usize,
    faults: Faults,
) -> Left {
    let (is_done, left) = commit(alloc, disk(rt, alloc, old, b""), most, new, faults);
    let is_one = if is_done {
        opens_to_either(rt, alloc, &left, old, new)
    } else {
        opens_to_one(rt, alloc, &left, old, new)
    };
    if is_one {
        held(alloc, left, is_done, old, new)
    } else {
        Left::Neither
    }
}

/// Whether a crash after the last call that was done opens to one of two documents.
fn opens_to_one(rt: &impl Abort, alloc: Global, left: &MemoryDisk, old: &[u8], new: &[u8]) -> bool {
    // A crash before the last call is one of a shorter run.
    let calls = left.calls().len();
    opens_with_any(rt, alloc, left, calls, old, new, false)
}

/// With each number of calls before the one that fails, and with each before those that fail from there on, until none
/// does. Both documents were seen after a failure.
fn are_either(rt: &impl Abort, alloc: Global, old: &[u8], new: &[u8], most: usize) -> bool {
    let mut old_seen = false;
    let mut new_seen = false;
    for calls in 0..MANY {
        let once = run(rt, alloc, old, new, most, Faults::Once(calls));
        let stops = run(rt, alloc, old, new, most, Faults::From(calls));
        assert!(rt;
            once != Left::Neither && stops != Left::Neither,
            "after {calls} calls"
        );
        old_seen = old_seen || once == Left::Old;
        new_seen = new_seen || once == Left::New;
        if once == Left::Whole && stops == Left::Whole {
            return old_seen && new_seen;
        }
    }
    false
}

#[test]
fn calls_that_do_less_and_fail_in_turn_leave_either_document(rt: HostRuntime) {
    let alloc = rt.alloc();
    let short = b"an old document";
    assert!(rt; are_either(&rt, alloc, short, b"another, a longer one", 5));
    let long = crate::wide::bytes_of(alloc, 2_000, 0).expect(&rt, "memory");
    let other = crate::wide::bytes_of(alloc, 2_000, 9).expect(&rt, "memory");
    assert!(rt; are_either(&rt, alloc, short, &long, 300));
    assert!(rt; are_either(&rt, alloc, &long, short, 300));
    assert!(rt; are_either(&rt, alloc, &long, &other, 300));
}

/// Whether a sync fails once a sync or a write has failed, though its files would lie.
fn stays_failed(rt: &impl Abort, alloc: Global, is_write: bool) -> bool {
    let mut files = disk(rt, alloc, b"old", b"");
    files.set_faults(Faults::Once(0));
    let mut disk = over(files, 1);
    let first = if is_write {
        disk.write(Area::Document, 0, b"new")
    } else {
        disk.sync(Area::Document)
    };
    first.is_err()
        && disk.sync(Area::Document).is_err()
        && disk.sync(Area::Journal).is_err()
        && disk.failures() == 3
        && over(disk.into_files().into_disk(), 1)
            .sync(Area::Document)
            .is_ok()
}

#[test]
fn a_disk_whose_sync_or_write_failed_syncs_no_more(rt: HostRuntime) {
    assert!(rt; stays_failed(&rt, rt.alloc(), false));
    assert!(rt; stays_failed(&rt, rt.alloc(), true));
}
