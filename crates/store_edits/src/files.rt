//! The file that changes make of another.

ghost use Rattle.store_edits.specs.Edits.{IsEdit, IsUpdate, MakesTree, MayRefuseTree, MayRefuseUpdate};
ghost use Rattle.store_images.specs.Changed.{changed_blocks};
ghost use Rattle.cfb_file.specs.Denotes.{Denotes};
ghost use Rattle.cfb_file.specs.Limits.{MOST_BYTES};
ghost use Rattle.cfb_file.specs.Refusals.{Refuses, writable};
ghost use Rattle.std.specs.Prelude.{◌≡◌, ◌≤◌, IfErr, IfOk, Ok, OnOk, length};
ghost use Rattle.tree_storage.specs.Kept.{kept};
ghost use Rattle.read_files.specs.Reads.{MayRefuseFile};

use crate::fault::EditFault;
use cfb_file::fault::WriteFault;
use cfb_file::limit::MOST_BYTES;
use read_files::fault::ReadFault;
use read_files::read::read_file;
use std::alloc::{AllocError, Global};
use store_images::changed::changed;
use store_images::image::Image;
use store_model::fault::StoreFault;
use tree_edits::change::Change;
use tree_edits::editing::edit;
use tree_storage::tree::Tree;

/// The file that changes make of another, and how many blocks of 512 bytes differ.
#[derive(Drop)]
pub struct Renewed {
    pub image: Image,
    pub blocks: usize,
}

/// The tree that changes make of a file's.
fn edited_tree(
    alloc: Global,
    document: &[u8],
    changes: Vec<(usize, Change)>,
) -> Result<Tree, EditFault>
    ensures edited { IfOk result (λ t. MakesTree changes.items document.now (kept t)) }
    ensures refused { IfErr result (MayRefuseUpdate changes.items document.now) }
{
    match read_file(alloc, document) {
        Ok(tree) => match edit(alloc, tree, changes) {
            Ok(edited) => Ok(edited),
            Err((number, fault)) => Err(EditFault::Line(number, fault)),
        },
        Err(fault) => Err(EditFault::Read(fault)),
    }
}

/// An image of a file.
fn image_of(alloc: Global, document: &[u8]) -> Result<Image, ReadFault>
    ensures refused { IfErr result (MayRefuseFile document.now) }
{
    match Vec::from_slice(alloc, document) {
        Ok(file) => Image::open(alloc, file),
        Err(_) => Err(ReadFault::NoMemory),
    }
}

/// Makes an image that of a tree. What is freed is zeroed, or stays.
fn update(alloc: Global, image: &mut Image, tree: &Tree, is_zeroed: bool) -> Result<(), WriteFault>
    ensures denotes { OnOk result (∥ Denotes image.new (kept tree.now).now ∥₁) }
    ensures refused { IfErr result (Refuses (writable (kept tree.now).now)) }
    ensures allowed { OnOk result (writable (kept tree.now).now ≡ Ok tt) }
{
    if is_zeroed {
        return match image.update_zeroed(alloc, tree) {
            Ok(_) => Ok(()),
            Err(fault) => Err(fault),
        };
    }
    match image.update(alloc, tree) {
        Ok(_) => Ok(()),
        Err(fault) => Err(fault),
    }
}

/// How many blocks of a file differ from an older one's, or are new.
fn count_changed(alloc: Global, old: &[u8], new: &[u8]) -> Result<usize, AllocError>
    requires { length new.now ≤ MOST_BYTES }
    ensures { IfOk result (λ n. n ≡ length (changed_blocks old.now new.now)) }
{
    let numbers = changed(alloc, old, new)?;
    Ok(numbers.len())
}

/// The file of a tree in the place of another one.
fn file_of(
    alloc: Global,
    document: &[u8],
    tree: &Tree,
    is_zeroed: bool,
) -> Result<Renewed, EditFault>
    ensures updated { IfOk result (λ u. IsUpdate document.now (kept tree.now).now u) }
    ensures refused { IfErr result (MayRefuseTree document.now (kept tree.now).now) }
{
    let mut image = match image_of(alloc, document) {
        Ok(image) => image,
        Err(fault) => return Err(EditFault::Read(fault)),
    };
    match update(alloc, &mut image, tree, is_zeroed) {
        Ok(()) => {}
        Err(fault) => return Err(EditFault::Write(fault)),
    }
    if image.bytes().len() as u64 > MOST_BYTES {
        return Err(EditFault::Store(StoreFault::TooBig));
    }
    match count_changed(alloc, document, image.bytes()) {
        Ok(blocks) => Ok(Renewed { image, blocks }),
        Err(_) => Err(EditFault::Write(WriteFault::NoMemory)),
    }
}

/// The file that changes make of another, in its sectors. What is freed is zeroed, or stays.
///
/// Refused: as `read_file` and `edit`; `Write` where no file can hold the tree; `Store` where the file has more bytes
/// than a store takes.
pub fn updated(
    alloc: Global,
    document: &[u8],
    changes: Vec<(usize, Change)>,
    is_zeroed: bool,
) -> Result<Renewed, EditFault>
    ensures edited { IfOk result (λ u. IsEdit changes.items document.now u.image) }
    ensures counted { IfOk result (λ u. u.blocks ≡ length (changed_blocks document.now u.image)) }
    ensures refused { IfErr result (MayRefuseUpdate changes.items document.now) }
{
    match edited_tree(alloc, document, changes) {
        Ok(tree) => file_of(alloc, document, &tree, is_zeroed),
        Err(fault) => Err(fault),
    }
}
