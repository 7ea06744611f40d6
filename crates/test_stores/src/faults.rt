//! Refusals, and disks that fail.

use crate::runs::{commit_failing, crashed, disk, document, open_only};
use std::alloc::Global;
use std::process::Abort;
use store_core::store::Store;
use store_memory::memory_disk::{Faults, MemoryDisk};
use store_model::fault::StoreFault;
use store_model::limit::MAX_DOCUMENT;
use test_disks::images::Pending;

/// Whether an open and a commit with these failures end as they have to, and whether they end without one. The journal
/// is what is found beside the document.
fn run(rt: &impl Abort, alloc: Global, journal: &[u8], faults: Faults) -> (bool, bool) {
    let found = disk(rt, alloc, b"old", journal);
    let (told, after) = commit_failing(alloc, found, b"another", faults);
    let whole = after.failures() == 0;
    (ends_well(rt, alloc, after, told, whole), whole)
}

/// Whether a disk holds what is told of its commit, both as it is and after a crash.
fn ends_well(
    rt: &impl Abort,
    alloc: Global,
    after: MemoryDisk,
    told: Option<bool>,
    whole: bool,
) -> bool {
    // Where the disk stopped, pending writes become zero.
    let calls = after.calls().len();
    let image = crashed(rt, alloc, &after, calls, Pending::Zeroed, Pending::Zeroed);
    let after_crash = document(alloc, image).expect(rt, "a document");
    let reopened = document(alloc, after).expect(rt, "a document");
    match told {
        Some(true) => is_another(&reopened) && is_another(&after_crash),
        Some(false) => !whole && is_either(&reopened) && is_either(&after_crash),
        None => false,
    }
}

fn is_another(found: &[u8]) -> bool {
    found == b"another".as_slice()
}

fn is_either(found: &[u8]) -> bool {
    found == b"old".as_slice() || is_another(found)
}

/// With failures after each of 40 numbers of calls; and whether there are so many that none comes.
fn runs(rt: &impl Abort, alloc: Global, journal: &[u8]) -> bool {
    let mut once_ended = false;
    let mut stops_ended = false;
    for calls in 0..40u64 {
        let (once, once_whole) = run(rt, alloc, journal, Faults::Once(calls));
        let (stops, stops_whole) = run(rt, alloc, journal, Faults::From(calls));
        assert!(rt; once && stops, "after {calls} calls");
        once_ended = once_ended || once_whole;
        stops_ended = stops_ended || stops_whole;
    }
    once_ended && stops_ended
}

#[test]
fn a_disk_that_fails_leaves_the_old_document_or_the_new_one(rt: HostRuntime) {
    // Without a journal, and with one that a crash left open.
    assert!(rt; runs(&rt, rt.alloc(), b""));
    assert!(rt; runs(&rt, rt.alloc(), b"\x01\x03\0\0\0\0\0\0\0old"));
}

fn is_damaged(rt: &impl Abort, alloc: Global, journal: &[u8]) -> bool {
    let (told, after) = open_only(alloc, disk(rt, alloc, b"old", journal));
    told == Err(StoreFault::Damaged)
        && after.held().document.as_slice() == b"old".as_slice()
        && after.held().journal.as_slice() == journal
}

fn fails(rt: &impl Abort, alloc: Global) -> bool {
    let mut failing = disk(rt, alloc, b"old", b"");
    failing.set_faults(Faults::From(0));
    let (told, _) = open_only(alloc, failing);
    told == Err(StoreFault::Device)
}

fn is_current(store: &mut Store<MemoryDisk>, want: &[u8]) -> bool {
    match store.current() {
        Ok(found) => found.as_slice() == want,
        Err(_) => false,
    }
}

/// Whether a store refuses these bytes, and takes all but the first of them.
fn is_limited(store: &mut Store<MemoryDisk>, bytes: &[u8]) -> bool {
    let less = bytes.get(1..).unwrap_or(&[]);
    is_current(store, b"")
        && store.commit(bytes) == Err(StoreFault::TooBig)
        && is_current(store, b"")
        && !store.needs_reopen()
        && store.commit(less).is_ok()
        && is_current(store, less)
}

fn is_limited_disk(alloc: Global, disk: MemoryDisk, bytes: &[u8]) -> bool {
    match Store::open(alloc, disk) {
        Ok(mut store) => is_limited(&mut store, bytes),
        Err(_) => false,
    }
}

#[test]
fn refusals_have_their_reasons(rt: HostRuntime) {
    let alloc = rt.alloc();
    assert!(rt; is_damaged(&rt, alloc, b"\x01\x05\0\0\0\0\0\0\0four"));
    assert!(rt; is_damaged(&rt, alloc, b"\x01\xff\xff\xff\xff\xff\xff\xff\xff"));
    assert!(rt; is_damaged(&rt, alloc, b"\x01\x01\x02\x65\x04\0\0\0\0"));
    assert!(rt; fails(&rt, alloc));
    let greatest = vec![in alloc; 7u8; MAX_DOCUMENT as usize + 1].expect(&rt, "memory");
    assert!(rt; greatest.len() == MAX_DOCUMENT as usize + 1);
    assert!(rt; is_limited_disk(alloc, disk(&rt, alloc, b"", b""), &greatest));
}
