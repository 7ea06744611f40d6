//! A store over files in memory. What is said of stores over any disk that follows the model holds of it.

ghost use Rattle.store_files.specs.Files.{left_over, left_since_over, moment_over, reads_over};
ghost use Rattle.store_core.specs.Opened.{disk_of, needs_reopen_of};
ghost use Rattle.store_model.specs.Crash.{StaysIn};
ghost use Rattle.store_model.specs.Image.{Image};
ghost use Rattle.store_model.specs.Journal.{restored};
ghost use Rattle.store_model.specs.Store.{IsBeforeOrAfter, StandsAsOneOf, StandsFor};
ghost use Rattle.std.specs.Prelude.{◌≡◌, Some, false, IfErr, IfOk, OnOk};

use crate::memory_files::MemoryFiles;
use std::alloc::Global;
use store_core::refused::Refused;
use store_core::store::Store;
use store_disk::file_disk::FileDisk;
use store_model::fault::StoreFault;

/// Opens a store on files in memory, as a crash may have left them. A crash at any moment of it leaves what stands for
/// what one just before it might have left. Refused as `Store::open` is.
pub fn open(
    alloc: Global,
    disk: FileDisk<MemoryFiles>,
) -> Result<Store<FileDisk<MemoryFiles>>, Refused<FileDisk<MemoryFiles>>>
    ensures document { IfOk result (λ store. restored (reads_over disk) ≡ Some (reads_over (disk_of store)).document) }
    ensures ready { IfOk result (λ store. needs_reopen_of store ≡ false) }
    ensures any_moment { IfOk result (λ store. StaysIn left_over moment_over left_since_over disk (disk_of store)
        (StandsAsOneOf (left_over disk))) }
    ensures any_moment_refused { IfErr result
        (λ refused. StaysIn left_over moment_over left_since_over disk refused.disk
        (StandsAsOneOf (left_over disk))) }
{
    Store::open(alloc, disk)
}

/// Makes these bytes the document. A crash at any moment of it leaves the document from before or this one, and after
/// `Ok` this one. Refused as `Store::commit` is.
pub fn commit(store: &mut Store<FileDisk<MemoryFiles>>, bytes: &[u8]) -> Result<(), StoreFault>
    ensures durable { OnOk result ((c : Image) → left_over (disk_of store.new) c → StandsFor bytes.now c) }
    ensures any_moment { needs_reopen_of store.old ≡ false
        → StaysIn left_over moment_over left_since_over (disk_of store.old) (disk_of store.new)
        (IsBeforeOrAfter (reads_over (disk_of store.old)).document bytes.now) }
{
    store.commit(bytes)
}
