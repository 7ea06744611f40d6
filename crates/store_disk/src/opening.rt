//! Disks of documents by their names.

ghost use Rattle.store_disk.specs.Files.{failures_of, sync_may_lie_of};
ghost use Rattle.store_disk.specs.Names.{CountsCalls, is_filled, is_there};
ghost use Rattle.store_disk.specs.Refusals.{FilesRefuse};
ghost use Rattle.store_model.specs.Crash.{Rose};
ghost use Rattle.std.specs.Prelude.{◌≡◌, ℕ, false, true, IfErr, IfOk, IfSome, IsNone, IsSome};

use crate::file_disk::FileDisk;
use crate::names::{Names, Standing};
use std::io::{self, ErrorKind};
use store_model::fault::StoreFault;

/// What an error of a call is to a store.
fn fault_of(error: &io::Error) -> StoreFault
    ensures { (before after : ℕ) → Rose before after → FilesRefuse before after result }
{
    if error.kind() == ErrorKind::OutOfMemory {
        StoreFault::NoMemory
    } else {
        StoreFault::Device
    }
}

/// The disk of a document. Those of its files that are missing are made.
///
/// `NoMemory` where a call failed for want of it, `Device` where one failed otherwise.
pub fn open<N: Names>(names: &mut N, name: &str) -> Result<FileDisk<N::Files>, StoreFault>
    ensures failed { IfOk result (λ disk. failures_of disk ≡ 0) }
    ensures sync { IfOk result (λ disk. sync_may_lie_of disk ≡ false) }
    ensures refuses { IfErr result (FilesRefuse (N.failed names.old) (N.failed names.new)) }
{
    match names.open(name) {
        Ok(files) => Ok(FileDisk::new(files)),
        Err(error) => Err(fault_of(&error)),
    }
}

/// The disk of a document that was found.
fn open_found<N: Names>(names: &mut N, name: &str) -> Result<Option<FileDisk<N::Files>>, StoreFault>
    ensures some { IfOk result (λ found. IsSome found) }
    ensures failed { IfOk result (λ found. IfSome found (λ disk. failures_of disk ≡ 0)) }
    ensures sync { IfOk result (λ found. IfSome found (λ disk. sync_may_lie_of disk ≡ false)) }
    ensures refuses { IfErr result (FilesRefuse (N.failed names.old) (N.failed names.new)) }
{
    match open(names, name) {
        Ok(disk) => Ok(Some(disk)),
        Err(fault) => Err(fault),
    }
}

/// Whether there is a document.
fn is_document<N: Names>(names: &mut N, name: &str) -> io::Result<bool>
    ensures there { N.follows_model
        → IfOk result (λ is. is ≡ is_there (N.standing names.old name.now) (N.beside names.old name.now)) }
    ensures count { CountsCalls (N.failed names.old) (N.failed names.new) result }
{
    match names.look(name)? {
        Standing::Missing => {
            let beside = names.look_beside(name)?;
            Ok(beside.is_open())
        }
        Standing::Empty | Standing::Taken => Ok(true),
    }
}

/// Whether there is a document that may have bytes.
fn is_document_filled<N: Names>(names: &mut N, name: &str) -> io::Result<bool>
    ensures filled { N.follows_model
        → IfOk result (λ is. is ≡ is_filled (N.standing names.old name.now) (N.beside names.old name.now)) }
    ensures count { CountsCalls (N.failed names.old) (N.failed names.new) result }
{
    match names.look(name)? {
        Standing::Missing => {
            let beside = names.look_beside(name)?;
            Ok(beside.is_open())
        }
        Standing::Empty => {
            let beside = names.look_beside(name)?;
            Ok(beside.is_there())
        }
        Standing::Taken => Ok(true),
    }
}

/// The disk of a document, if there is one: something bears its name, or an open journal, which holds it, its
/// journal's. Else `None`, and nothing is made. Refused as `open` is.
pub fn find<N: Names>(names: &mut N, name: &str) -> Result<Option<FileDisk<N::Files>>, StoreFault>
    ensures none { N.follows_model
        → IfOk result (λ found. IsNone found → is_there (N.standing names.old name.now)
        (N.beside names.old name.now) ≡ false) }
    ensures some { N.follows_model
        → IfOk result (λ found. IsSome found → is_there (N.standing names.old name.now)
        (N.beside names.old name.now) ≡ true) }
    ensures failed { IfOk result (λ found. IfSome found (λ disk. failures_of disk ≡ 0)) }
    ensures sync { IfOk result (λ found. IfSome found (λ disk. sync_may_lie_of disk ≡ false)) }
    ensures refuses { IfErr result (FilesRefuse (N.failed names.old) (N.failed names.new)) }
{
    match is_document(names, name) {
        Ok(true) => open_found(names, name),
        Ok(false) => Ok(None),
        Err(error) => Err(fault_of(&error)),
    }
}

/// The disk of a document that may have bytes, if there is one: as `find`, but a file without bytes is none where
/// nothing bears its journal's name. Refused as `open` is.
pub fn find_filled<N: Names>(
    names: &mut N,
    name: &str,
) -> Result<Option<FileDisk<N::Files>>, StoreFault>
    ensures none { N.follows_model
        → IfOk result (λ found. IsNone found → is_filled (N.standing names.old name.now)
        (N.beside names.old name.now) ≡ false) }
    ensures some { N.follows_model
        → IfOk result (λ found. IsSome found → is_filled (N.standing names.old name.now)
        (N.beside names.old name.now) ≡ true) }
    ensures failed { IfOk result (λ found. IfSome found (λ disk. failures_of disk ≡ 0)) }
    ensures sync { IfOk result (λ found. IfSome found (λ disk. sync_may_lie_of disk ≡ false)) }
    ensures refuses { IfErr result (FilesRefuse (N.failed names.old) (N.failed names.new)) }
{
    match is_document_filled(names, name) {
        Ok(true) => open_found(names, name),
        Ok(false) => Ok(None),
        Err(error) => Err(fault_of(&error)),
    }
}
