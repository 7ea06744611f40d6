//! Building the tree of a folder, and writing its file.

ghost use Rattle.folder_commands.specs.Packing.{IsRefused, MayRefusePack, Packs, RefusesFound, packed, put_content};
ghost use Rattle.folder_commands.specs.Packing.{root};
ghost use Rattle.std.specs.Prelude.{◌≡◌, ◌≢◌, Ok, IfErr, IfOk, OnOk};
ghost use Rattle.tree_storage.specs.Change.{Outcome};
ghost use Rattle.tree_storage.specs.Kept.{kept};

use crate::plan::Content;
use cfb_file::fault::WriteFault;
use cfb_names::name::Name;
use std::alloc::Global;
use std::io::Write;
use text_io::output::write_all;
use tree_storage::fault::TreeFault;
use tree_storage::tree::Tree;
use tree_values::class_id::ClassId;
use write_files::write::write_file;

/// A storage or a stream that was found in a folder.
#[derive(Drop)]
pub struct Found {
    /// The names of the storages that it stands in, and its own.
    pub path: Vec<Name>,
    /// What it is.
    pub content: Content,
}

/// Why no file is made of what was found.
#[derive(Drop)]
pub enum PackFault {
    /// The tree doesn't take what was found at this path.
    Tree(Vec<Name>, TreeFault),
    /// The tree isn't written.
    Write(WriteFault),
    /// A write fails.
    Unwritable,
}

/// Writes a compound file of what was found in a folder, whose own storage has this class id and these state bits, and
/// gives its length.
///
/// Refused: the first that the tree doesn't take behind those before it; a tree that doesn't fit into a file. Nothing
/// is written then. `Unwritable` where a write fails.
pub fn pack_found<W: Write>(
    alloc: Global,
    class: ClassId,
    state: u32,
    found: Vec<Found>,
    writer: &mut W,
) -> Result<usize, PackFault>
    ensures packed { IfOk result (λ count. Packs class state found.items (W.contents writer.old)
        (W.contents writer.new) count) }
    ensures refused { IfErr result (MayRefusePack class state found.items) }
    ensures unwritten { IfErr result (λ fault. fault ≢ PackFault.Unwritable → writer.new ≡ writer.old) }
{
    let mut tree = Tree::new(alloc, class, state);
    match put_all(&mut tree, found) {
        Ok(()) => {}
        Err((path, fault)) => return Err(PackFault::Tree(path, fault)),
    }
    let file = match write_file(alloc, &tree) {
        Ok(file) => file,
        Err(fault) => return Err(PackFault::Write(fault)),
    };
    match write_all(writer, &file) {
        Ok(()) => Ok(file.len()),
        Err(_) => Err(PackFault::Unwritable),
    }
}

/// Puts all that was found into a tree.
///
/// Refused: the first that the tree doesn't take, with its path.
fn put_all(tree: &mut Tree, found: Vec<Found>) -> Result<(), (Vec<Name>, TreeFault)>
    ensures put { OnOk result (packed found.items (kept tree.old) ≡ Ok (kept tree.new)) }
    ensures refused { IfErr result (λ r. IsRefused found.items (kept tree.old) r.0.items r.1) }
{
    for item in found {
        let Found { path, content } = item;
        match put(tree, &path, content) {
            Ok(()) => {}
            Err(fault) => return Err((path, fault)),
        }
    }
    Ok(())
}

/// Puts what was found at a path into a tree.
///
/// Refused: as `Tree::make_storage` and `Tree::make_stream`.
fn put(tree: &mut Tree, path: &[Name], content: Content) -> Result<(), TreeFault>
    ensures { Outcome result (put_content path.now content (kept tree.old)) (kept tree.old) (kept tree.new) }
{
    match content {
        Content::Folder(class, state) => tree.make_storage(path, class, state),
        Content::File(bytes) => tree.make_stream(path, bytes),
    }
}
