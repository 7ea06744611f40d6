//! Stores to which memory is refused: `tests/refused_memory` refuses one request after another. The disk in memory
//! wants some too, for the list of its calls: there a want of memory is a call that failed.

use crate::runs::disk;
use std::alloc::Global;
use std::process::Abort;
use store_core::outcome::Outcome;
use store_core::refused::Refused;
use store_core::resolved::commit_resolved;
use store_core::store::Store;
use store_memory::memory_disk::MemoryDisk;
use store_model::fault::StoreFault;
use test_marks::marks::{begin, end};

/// Whether a fault tells that memory was refused: by its name, or as a call of the disk that failed.
fn is_lack(fault: StoreFault, failures: u64) -> bool {
    if failures == 0 {
        fault == StoreFault::NoMemory
    } else {
        fault == StoreFault::Device
    }
}

fn open_once(alloc: Global, disk: MemoryDisk) -> Result<Store<MemoryDisk>, Refused<MemoryDisk>> {
    begin(alloc);
    let store = Store::open(alloc, disk);
    end(alloc);
    store
}

/// Opens a disk, once more where memory is refused.
fn opened(rt: &impl Abort, alloc: Global, disk: MemoryDisk) -> Store<MemoryDisk> {
    match open_once(alloc, disk) {
        Ok(store) => store,
        Err(Refused { fault, disk }) => {
            assert!(rt; is_lack(fault, disk.failures()));
            open_once(alloc, disk).ok().expect(rt, "a store")
        }
    }
}

fn current_once(alloc: Global, store: &mut Store<MemoryDisk>) -> Result<Vec<u8>, StoreFault> {
    begin(alloc);
    let document = store.current();
    end(alloc);
    document
}

fn is_found(found: Result<Vec<u8>, StoreFault>, want: &[u8]) -> bool {
    match found {
        Ok(found) => found.as_slice() == want,
        Err(_) => false,
    }
}

/// Whether this is the document. Where memory is refused, the store needn't be opened again, and is asked once more.
fn is_current(alloc: Global, store: &mut Store<MemoryDisk>, want: &[u8]) -> bool {
    match current_once(alloc, store) {
        Err(StoreFault::NoMemory) => {
            !store.needs_reopen() && is_found(current_once(alloc, store), want)
        }
        found => is_found(found, want),
    }
}

fn holds_once(
    alloc: Global,
    store: &mut Store<MemoryDisk>,
    bytes: &[u8],
) -> Result<bool, StoreFault> {
    begin(alloc);
    let holds = store.holds(bytes);
    end(alloc);
    holds
}

/// The same, where only whether it is is asked.
fn holds(alloc: Global, store: &mut Store<MemoryDisk>, bytes: &[u8]) -> bool {
    match holds_once(alloc, store, bytes) {
        Err(StoreFault::NoMemory) => {
            !store.needs_reopen() && holds_once(alloc, store, bytes) == Ok(true)
        }
        holds => holds == Ok(true),
    }
}

fn commit_once(
    alloc: Global,
    store: &mut Store<MemoryDisk>,
    bytes: &[u8],
) -> Result<(), StoreFault> {
    begin(alloc);
    let answer = store.commit(bytes);
    end(alloc);
    answer
}

/// Commits a document in place of another. Where memory is refused, the other one stands, and it is committed again;
/// where a call of the disk failed, one of both stands once it is opened again.
fn committed(
    rt: &impl Abort,
    alloc: Global,
    store: Store<MemoryDisk>,
    old: &[u8],
    new: &[u8],
) -> Store<MemoryDisk> {
    let mut store = store;
    match commit_once(alloc, &mut store, new) {
        Ok(()) => store,
        Err(StoreFault::NoMemory) => {
            assert!(rt; !store.needs_reopen() && is_current(alloc, &mut store, old));
            assert!(rt; store.commit(new).is_ok());
            store
        }
        Err(fault) => recommitted(rt, alloc, fault, store, old, new),
    }
}

fn recommitted(
    rt: &impl Abort,
    alloc: Global,
    fault: StoreFault,
    store: Store<MemoryDisk>,
    old: &[u8],
    new: &[u8],
) -> Store<MemoryDisk> {
    assert!(rt; store.needs_reopen());
    let disk = store.into_disk();
    assert!(rt; is_lack(fault, disk.failures()));
    let mut again = opened(rt, alloc, disk);
    assert!(rt; holds(alloc, &mut again, old) || holds(alloc, &mut again, new));
    assert!(rt; again.commit(new).is_ok());
    again
}

/// A disk is opened, and two documents are committed on it, the second in place of the first.
fn play(
    rt: &impl Abort,
    alloc: Global,
    found: MemoryDisk,
    old: &[u8],
    first: &[u8],
    second: &[u8],
) -> bool {
    let mut store = opened(rt, alloc, found);
    let is_old = is_current(alloc, &mut store, old) && holds(alloc, &mut store, old);
    let mut store = committed(rt, alloc, store, old, first);
    let is_first = is_current(alloc, &mut store, first);
    let mut store = committed(rt, alloc, store, first, second);
    is_old && is_first && is_current(alloc, &mut store, second) && holds(alloc, &mut store, second)
}

/// A document of several windows.
fn long(rt: &impl Abort, alloc: Global, byte: u8) -> Vec<u8> {
    vec![in alloc; byte; 300_000].expect(rt, "memory")
}

#[test]
fn a_refused_store_is_asked_again(rt: HostRuntime) {
    let alloc = rt.alloc();
    assert!(rt;
        play(
            &rt,
            alloc,
            disk(&rt, alloc, b"", b""),
            b"",
            b"first",
            b"the second one"
        )
    );
    let journal = b"\x01\x05\0\0\0\0\0\0\0whole";
    assert!(rt;
        play(
            &rt,
            alloc,
            disk(&rt, alloc, b"torn in", journal),
            b"whole",
            b"",
            b"new"
        )
    );
}

#[test]
fn a_refused_commit_of_windows_is_made_again(rt: HostRuntime) {
    let alloc = rt.alloc();
    let old = long(&rt, alloc, 1);
    let new = long(&rt, alloc, 2);
    assert!(rt;
        play(
            &rt,
            alloc,
            disk(&rt, alloc, &old, b""),
            &old,
            &new,
            b"short"
        )
    );
}

/// Whether a disk opens to one of two documents.
fn opens_to_either(
    rt: &impl Abort,
    alloc: Global,
    disk: MemoryDisk,
    old: &[u8],
    new: &[u8],
) -> bool {
    let mut store = opened(rt, alloc, disk);
    holds(alloc, &mut store, old) || holds(alloc, &mut store, new)
}

/// Whether a commit ends as it is told, where memory is refused on its way.
fn is_resolved(
    rt: &impl Abort,
    alloc: Global,
    store: Store<MemoryDisk>,
    old: &[u8],
    new: &[u8],
) -> bool {
    begin(alloc);
    let told = commit_resolved(store, new);
    end(alloc);
    match told {
        Ok((Outcome::Kept, mut store)) => holds(alloc, &mut store, new),
        Ok((Outcome::Lost(fault), mut store)) => {
            holds(alloc, &mut store, old) && is_lack(fault, store.into_disk().failures())
        }
        Err(Refused { fault, disk }) => {
            is_lack(fault, disk.failures()) && opens_to_either(rt, alloc, disk, old, new)
        }
    }
}

#[test]
fn a_refused_commit_is_resolved(rt: HostRuntime) {
    let alloc = rt.alloc();
    let store = opened(&rt, alloc, disk(&rt, alloc, b"old", b""));
    assert!(rt; is_resolved(&rt, alloc, store, b"old", b"another"));
    let (old, new) = (long(&rt, alloc, 3), long(&rt, alloc, 4));
    let store = opened(&rt, alloc, disk(&rt, alloc, &old, b""));
    assert!(rt; is_resolved(&rt, alloc, store, &old, &new));
}
