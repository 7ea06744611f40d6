//! Writing whole compound files into memory.

ghost use Rattle.std.specs.Prelude.{◌≡◌, IfErr, IfOk, Ok, OnOk};
ghost use Rattle.tree_storage.specs.Kept.{kept};
ghost use Rattle.tree_storage.specs.View.{view};
ghost use Rattle.cfb_entries.specs.Whole.{IsTree};
ghost use Rattle.cfb_file.specs.Denotes.{Denotes};
ghost use Rattle.cfb_file.specs.Refusals.{Refuses, writable};
ghost use Rattle.write_files.specs.Laid.{IsLaidOut};

use crate::front::front_of;
use crate::needs::count;
use crate::sent_streams::send_all;
use cfb_file::fault::WriteFault;
use std::alloc::Global;
use tree_storage::storage::Storage;
use tree_storage::tree::Tree;

/// Whether a file can hold a tree with this root. It takes no memory.
///
/// Refused: as for `write_file`, but never `NoMemory`.
pub fn fits(root: &Storage) -> Result<(), WriteFault>
    ensures { result ≡ writable (view root.now) }
{
    match count(root) {
        Ok(_) => Ok(()),
        Err(fault) => Err(fault),
    }
}

/// The file of a whole tree with this root.
fn write_root(alloc: Global, root: &Storage) -> Result<Vec<u8>, WriteFault>
    requires { ∥ IsTree 32 (view root.now) ∥₁ }
    ensures denotes { IfOk result (λ v. ∥ Denotes v.items (view root.now) ∥₁) }
    ensures laid_out { IfOk result (λ v. IsLaidOut (view root.now) v.items) }
    ensures refused { IfErr result (Refuses (writable (view root.now))) }
    ensures allowed { OnOk result (writable (view root.now) ≡ Ok tt) }
{
    let counts = count(root)?;
    let front = front_of(alloc, root, counts)?;
    let mut file = Vec::with_capacity(alloc, counts.file_len())?;
    match send_all(&mut file, front, root, counts) {
        Ok(()) => Ok(file),
        Err(_) => Err(WriteFault::NoMemory),
    }
}

/// The bytes of a compound file that denotes the tree (MS-CFB 2), laid out of its parts alone.
///
/// Refused: `TooBig` where the least number of FAT sectors that covers the tree is above the limit; then `NoMemory`.
pub fn write_file(alloc: Global, tree: &Tree) -> Result<Vec<u8>, WriteFault>
    ensures denotes { IfOk result (λ v. ∥ Denotes v.items (kept tree.now).now ∥₁) }
    ensures laid_out { IfOk result (λ v. IsLaidOut (kept tree.now).now v.items) }
    ensures refused { IfErr result (Refuses (writable (kept tree.now).now)) }
    ensures allowed { OnOk result (writable (kept tree.now).now ≡ Ok tt) }
{
    let file = write_root(alloc, tree.root())?;
    Ok(file)
}
