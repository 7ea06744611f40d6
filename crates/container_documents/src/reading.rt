//! The document that a file gives.

ghost use Rattle.std.specs.Prelude.{◌≡◌, ◌≢◌, IfErr, IfOk, IfSome, None, Some, true};
ghost use Rattle.tree_storage.specs.Kept.{kept};
ghost use Rattle.container_documents.specs.Reading.{IsHeldAs, as_given};
ghost use Rattle.container_model.specs.Opens.{IsReadAs};
ghost use Rattle.container_model.specs.Saves.{is_document};
ghost use Rattle.ole_model.specs.declared.fault.OleFault.TheVariants as ole;
ghost use Rattle.read_files.specs.declared.fault.ReadFault.TheVariants as reading;

use ole_model::fault::OleFault;
use ole_streams::doc::Doc;
use ole_streams::document_of::document_of;
use read_files::fault::ReadFault;
use read_files::read::read_file;
use std::alloc::{AllocError, Global};
use tree_storage::tree::Tree;

/// Whether a tree is refused for want of memory.
fn lacks_memory(fault: OleFault) -> bool
    ensures lacking { result ≡ true → fault ≡ ole.NoMemory }
    ensures other { result ≢ true → fault ≢ ole.NoMemory }
{
    match fault {
        OleFault::NoMemory => true,
        _ => false,
    }
}

/// Whether a file is refused for want of memory.
fn lacks_memory_to_read(fault: ReadFault) -> bool
    ensures lacking { result ≡ true → fault ≡ reading.NoMemory }
    ensures other { result ≢ true → fault ≢ reading.NoMemory }
{
    match fault {
        ReadFault::NoMemory => true,
        _ => false,
    }
}

/// The document that a tree holds, none where it holds none.
///
/// Refused for want of memory alone.
fn document_held(alloc: Global, tree: Tree) -> Result<Option<Doc>, AllocError>
    ensures held { IfOk result (IsHeldAs (kept tree).now) }
    ensures within { IfOk result (λ d. IfSome d (λ doc. is_document doc.objects ≡ true)) }
{
    match document_of(alloc, tree) {
        Ok(doc) => {
            let _ = doc.as_slice();
            Ok(Some(doc))
        }
        Err(fault) => {
            if lacks_memory(fault) {
                return Err(AllocError);
            }
            Ok(None)
        }
    }
}

/// The document that a file gives (MS-CFB 2), none where the bytes are no compound file, or one that holds no document.
/// What the file's streams hold is copied once.
///
/// Refused for want of memory alone.
pub fn document_in(alloc: Global, file: &[u8]) -> Result<Option<Doc>, AllocError>
    ensures given { IfOk result (λ d. IsReadAs (Some file.now) (as_given d)) }
    ensures within { IfOk result (λ d. IfSome d (λ doc. is_document doc.objects ≡ true)) }
{
    match read_file(alloc, file) {
        Ok(tree) => document_held(alloc, tree),
        Err(fault) => {
            if lacks_memory_to_read(fault) {
                return Err(AllocError);
            }
            Ok(None)
        }
    }
}
