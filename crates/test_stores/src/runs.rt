//! Runs of a store that tests make. These functions have no contracts, so that the tests stay quick to prove.

use std::alloc::{AllocError, Global};
use std::process::Abort;
use store_core::store::Store;
use store_memory::memory_disk::{Faults, MemoryDisk};
use store_model::fault::StoreFault;
use test_disks::images::Pending;

fn disk_of(alloc: Global, document: &[u8], journal: &[u8]) -> Result<MemoryDisk, AllocError> {
    MemoryDisk::new(alloc, document.to_vec(alloc)?, journal.to_vec(alloc)?)
}

/// A disk in memory with these bytes.
pub(crate) fn disk(rt: &impl Abort, alloc: Global, document: &[u8], journal: &[u8]) -> MemoryDisk {
    disk_of(alloc, document, journal).expect(rt, "memory")
}

/// The disk that a crash leaves after the first so many calls of another.
pub(crate) fn crashed(
    rt: &impl Abort,
    alloc: Global,
    from: &MemoryDisk,
    calls: usize,
    document: Pending,
    journal: Pending,
) -> MemoryDisk {
    test_disks::images::crashed(alloc, from, calls, document, journal).expect(rt, "memory")
}

/// Opens a disk, and gives the disk back whatever it answers.
pub(crate) fn open_only(alloc: Global, disk: MemoryDisk) -> (Result<(), StoreFault>, MemoryDisk) {
    match Store::open(alloc, disk) {
        Ok(store) => (Ok(()), store.into_disk()),
        Err(refused) => (Err(refused.fault), refused.disk),
    }
}

/// Opens a disk, and reads its document.
pub(crate) fn document(alloc: Global, disk: MemoryDisk) -> Result<Vec<u8>, StoreFault> {
    match Store::open(alloc, disk) {
        Ok(mut store) => store.current(),
        Err(refused) => Err(refused.fault),
    }
}

/// Opens a disk and commits a document. Gives the disk back, and whether the commit was made. A commit that failed has
/// to be followed by `NeedsReopen`, else the answer is `None`.
pub(crate) fn commit(alloc: Global, disk: MemoryDisk, bytes: &[u8]) -> (Option<bool>, MemoryDisk) {
    let mut store = match Store::open(alloc, disk) {
        Ok(store) => store,
        Err(refused) => return (Some(false), refused.disk),
    };
    let told = match store.commit(bytes) {
        Ok(()) => Some(true),
        Err(StoreFault::Device) => {
            let again = store.commit(bytes);
            let read = store.current();
            if again == Err(StoreFault::NeedsReopen) && read.is_err() && store.needs_reopen() {
                Some(false)
            } else {
                None
            }
        }
        Err(_) => None,
    };
    (told, store.into_disk())
}

/// The same with calls of the disk that fail. They are healed before the disk is given back.
pub(crate) fn commit_failing(
    alloc: Global,
    disk: MemoryDisk,
    bytes: &[u8],
    faults: Faults,
) -> (Option<bool>, MemoryDisk) {
    let mut disk = disk;
    disk.set_faults(faults);
    let (told, mut disk) = commit(alloc, disk, bytes);
    disk.set_faults(Faults::Never);
    (told, disk)
}
