//! What is asked of a whole compound file in memory.

ghost use Rattle.cfb_names.specs.Names.{key};
ghost use Rattle.std.specs.Prelude.{◌≡◌, ◌↔◌, IfErr, IfOk, IsTrue, Ok};
ghost use Rattle.tree_storage.specs.Kept.{kept};
ghost use Rattle.cfb_entries.specs.Tree as tree;
ghost use Rattle.cfb_file.specs.Denotes.{Denotes};
ghost use Rattle.read_outlines.specs.Streams.{stream_at};
ghost use Rattle.read_files.specs.Reads.{MayRefuseFile, MayRefuseStream};
ghost use Rattle.read_files.specs.declared.fault.ReadFault.TheVariants.{NoMemory};

use crate::comparing::is_shown;
use cfb_names::name::Name;
use read_files::fault::{ReadFault, StreamFault};
use read_files::read::lay_out;
use read_outlines::filling::bytes_at;
use read_outlines::finding::place_at;
use std::alloc::Global;
use tree_storage::tree::Tree;

/// Whether a compound file denotes a tree, which is compared with it stream by stream. Each chain of sectors is walked
/// as for `read_file`, and of its streams one at a time is read.
///
/// Refused: as `read_file`.
pub fn is_file_of(alloc: Global, file: &[u8], wanted: &Tree) -> Result<bool, ReadFault>
    ensures same { IfOk result (λ same. IsTrue same ↔ ∥ Denotes file.now (kept wanted.now).now ∥₁) }
    ensures reads { (t : tree.Tree) → Denotes file.now t → IfErr result (λ e. e ≡ NoMemory) }
    ensures refused { IfErr result (MayRefuseFile file.now) }
{
    let layout = lay_out(alloc, file)?;
    let same = is_shown(
        alloc,
        &layout.fat,
        &layout.mini,
        &layout.root,
        wanted.root(),
    )?;
    Ok(same)
}

/// The bytes of the stream at a path of the tree that a compound file denotes. Each chain of sectors is walked as for
/// `read_file`, and no other stream is read.
///
/// Refused: as `read_file`; then `NotFound` where nothing stands at the path, and `WrongKind` where a storage does, or
/// where a stream stands on the way.
pub fn read_stream(alloc: Global, file: &[u8], path: &[Name]) -> Result<Vec<u8>, StreamFault>
    ensures found { IfOk result (λ v. (t : tree.Tree) × ∥ Denotes file.now t ∥₁ × (stream_at path.now t ≡ Ok v.items)) }
    ensures refused { IfErr result (MayRefuseStream file.now path.now) }
{
    let layout = match lay_out(alloc, file) {
        Ok(layout) => layout,
        Err(fault) => return Err(StreamFault::Read(fault)),
    };
    let place = match place_at(&layout.root, path) {
        Ok(place) => place,
        Err(fault) => return Err(StreamFault::Tree(fault)),
    };
    match bytes_at(alloc, &layout.fat, &layout.mini, place) {
        Ok(bytes) => Ok(bytes),
        Err(_) => Err(StreamFault::Read(ReadFault::NoMemory)),
    }
}
