//! Each crash point of an edit.

use crate::runs::{changes_of, document_of, edit, made};
use std::alloc::Global;
use std::process::Abort;
use store_core::store::Store;
use store_memory::memory_disk::MemoryDisk;
use test_disks::images::{PENDING, Pending, crashed};

/// Whether a crash after so many calls leaves one of two documents, and the second where it has to.
fn leaves(
    rt: &impl Abort,
    alloc: Global,
    from: &MemoryDisk,
    calls: usize,
    pending: (Pending, Pending),
    documents: (&[u8], &[u8]),
) -> bool {
    let disk = crashed(alloc, from, calls, pending.0, pending.1).expect(rt, "memory");
    let Ok(mut store) = Store::open(alloc, disk) else {
        return false;
    };
    let found = store.current().expect(rt, "a document");
    let is_done = calls == from.calls().len();
    found.as_slice() == documents.1 || (!is_done && found.as_slice() == documents.0)
}

fn leaves_either(
    rt: &impl Abort,
    alloc: Global,
    from: &MemoryDisk,
    documents: (&[u8], &[u8]),
) -> bool {
    for calls in 0..=from.calls().len() {
        for of_document in PENDING {
            for of_journal in PENDING {
                let pending = (of_document, of_journal);
                if !leaves(rt, alloc, from, calls, pending, documents) {
                    return false;
                }
            }
        }
    }
    true
}

#[test]
fn a_crash_of_an_edit_leaves_the_file_before_or_after(rt: HostRuntime) {
    let alloc = rt.alloc();
    let file = made(&rt, alloc, "stream A 010203\nfill B 5000 07\n");
    let changes = changes_of(
        &rt,
        alloc,
        "stream A 040506\nrename B C\nfill D 9000 08\nstorage S\nstream S/E 01\n",
    );
    let ending = edit(&rt, alloc, &file, changes, false);
    assert!(rt; ending.told.is_ok());
    let after = document_of(&ending.disk);
    assert!(rt; after != file.as_slice());
    assert!(rt; leaves_either(&rt, alloc, &ending.disk, (&file, after)));
}
