//! Each crash point of a commit and of an open.

use crate::runs::{commit, crashed, disk, document, open_only};
use std::alloc::Global;
use std::process::Abort;
use store_memory::memory_disk::MemoryDisk;
use test_disks::images::{PENDING, Pending};

/// Whether a crash after so many calls opens to one of two documents, and to the second where it has to.
fn opens_to(
    rt: &impl Abort,
    alloc: Global,
    from: &MemoryDisk,
    calls: usize,
    pending: (Pending, Pending),
    old: &[u8],
    new: &[u8],
    is_done: bool,
) -> bool {
    let image = crashed(rt, alloc, from, calls, pending.0, pending.1);
    let found = document(alloc, image).expect(rt, "a document");
    found.as_slice() == new || (!is_done && found.as_slice() == old)
}

/// The same with whatever becomes of the writes that no sync has followed.
pub(crate) fn opens_with_any(
    rt: &impl Abort,
    alloc: Global,
    from: &MemoryDisk,
    calls: usize,
    old: &[u8],
    new: &[u8],
    is_done: bool,
) -> bool {
    for of_document in PENDING {
        for of_journal in PENDING {
            if !opens_to(
                rt,
                alloc,
                from,
                calls,
                (of_document, of_journal),
                old,
                new,
                is_done,
            ) {
                return false;
            }
        }
    }
    true
}

/// Whether each crash of a disk's calls opens to one of two documents, and each after the last call to the second.
pub(crate) fn opens_to_either(
    rt: &impl Abort,
    alloc: Global,
    from: &MemoryDisk,
    old: &[u8],
    new: &[u8],
) -> bool {
    for calls in 0..=from.calls().len() {
        let is_done = calls == from.calls().len();
        if !opens_with_any(rt, alloc, from, calls, old, new, is_done) {
            return false;
        }
    }
    true
}

pub(crate) fn commits(
    rt: &impl Abort,
    alloc: Global,
    old: &[u8],
    journal: &[u8],
    new: &[u8],
) -> bool {
    let (told, after) = commit(alloc, disk(rt, alloc, old, journal), new);
    told == Some(true) && opens_to_either(rt, alloc, &after, old, new)
}

#[test]
fn a_crash_of_a_commit_leaves_the_old_document_or_the_new_one(rt: HostRuntime) {
    let alloc = rt.alloc();
    assert!(rt; commits(&rt, alloc, b"", b"", b"first"));
    assert!(rt; commits(&rt, alloc, b"old", b"\0", b"a longer document"));
    let left = b"\x07left of an earlier commit, longer";
    assert!(rt; commits(&rt, alloc, b"a longer document", left, b"new"));
    assert!(rt; commits(&rt, alloc, b"old", b"\x01\x03", b""));
    let open = b"\x01\x04\0\0\0\0\0\0";
    let ones = b"\x01\x01\x01\x01\x01\x01\x01\x01\x01\x01\x01";
    assert!(rt; commits(&rt, alloc, b"old", open, ones));
}

pub(crate) fn opens(
    rt: &impl Abort,
    alloc: Global,
    found: &[u8],
    journal: &[u8],
    want: &[u8],
) -> bool {
    let (told, after) = open_only(alloc, disk(rt, alloc, found, journal));
    told == Ok(()) && opens_to_either(rt, alloc, &after, want, want)
}

#[test]
fn a_crash_of_an_open_leaves_the_document_that_is_opened(rt: HostRuntime) {
    let alloc = rt.alloc();
    assert!(rt;
        opens(
            &rt,
            alloc,
            b"torn in",
            b"\x01\x05\0\0\0\0\0\0\0whole",
            b"whole"
        )
    );
    let more = b"\x01\x02\0\0\0\0\0\0\0ok, and more";
    assert!(rt; opens(&rt, alloc, b"a longer document", more, b"ok"));
    assert!(rt; opens(&rt, alloc, b"kept", b"", b"kept"));
    assert!(rt; opens(&rt, alloc, b"kept", b"\x01\x02\0", b"kept"));
    assert!(rt; opens(&rt, alloc, b"kept", b"\x02\x02\0\0\0\0\0\0\0no", b"kept"));
}
