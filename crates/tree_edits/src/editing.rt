//! Changes that are made of a tree.

ghost use Rattle.tree_edits.specs.Edited.{Does, RefusesEdit, changed, edited, with_name};
ghost use Rattle.tree_edits.specs.Marks.{marked};
ghost use Rattle.std.specs.Prelude.{◌≡◌, IfErr, IfOk, Ok, replicate};
ghost use Rattle.tree_storage.specs.Kept.{kept, made, put, removed, renamed};
ghost use Rattle.tree_descriptions.specs.Description.{at_path, of_tree};

use crate::change::{Change, Mark};
use crate::marks::mark_at;
use cfb_names::fault::DirFault;
use cfb_names::name::Name;
use std::alloc::{AllocError, Global};
use std::mem;
use text_spelling::path::Path;
use tree_descriptions::fault::LineFault;
use tree_storage::tree::Tree;
use tree_values::bytes::Bytes;
use tree_values::class_id::ClassId;

/// The tree that changes make of another, one after another, each with the number of its line. All are made, or none:
/// where one is refused, nothing is left of the tree.
///
/// Refused: the first that can't be made, with its number, for a name that no directory takes (`Name`), or as the
/// tree's call refuses it (`Tree`); then `NoMemory`.
pub fn edit(
    alloc: Global,
    tree: Tree,
    changes: Vec<(usize, Change)>,
) -> Result<Tree, (usize, LineFault)>
    ensures edited { IfOk result (λ t. edited changes.items (kept tree) ≡ Ok (kept t)) }
    ensures refused { IfErr result (RefusesEdit changes.items (kept tree)) }
{
    let mut tree = tree;
    for numbered in changes {
        let (number, change) = numbered;
        match carry_out(alloc, &mut tree, change) {
            Ok(()) => {}
            Err(fault) => return Err((number, fault)),
        }
    }
    Ok(tree)
}

/// Makes a change of a tree. What a refusal leaves of it isn't said.
fn carry_out(alloc: Global, tree: &mut Tree, change: Change) -> Result<(), LineFault>
    ensures { Does result (changed change (kept tree.old)) (kept tree.new) }
{
    match change {
        Change::Put(path, bytes) => match path.names() {
            Ok(names) => put(tree, names, bytes),
            Err(fault) => Err(LineFault::Name(fault)),
        },
        Change::Fill(path, count, byte) => match path.names() {
            Ok(names) => fill(alloc, tree, names, count, byte),
            Err(fault) => Err(LineFault::Name(fault)),
        },
        Change::Storage(path, class) => match path.names() {
            Ok(names) => make_storage(tree, names, class),
            Err(fault) => Err(LineFault::Name(fault)),
        },
        Change::Remove(path) => match path.names() {
            Ok(names) => remove(tree, names),
            Err(fault) => Err(LineFault::Name(fault)),
        },
        Change::Rename(path, name) => match path.names() {
            Ok(names) => rename(tree, names, name),
            Err(fault) => Err(LineFault::Name(fault)),
        },
        Change::Mark(path, mark) => match path.names() {
            Ok(names) => set_mark(alloc, tree, names, mark),
            Err(fault) => Err(LineFault::Name(fault)),
        },
        Change::MarkRoot(mark) => set_mark(alloc, tree, &[], mark),
    }
}

/// Puts a stream of these bytes at a path, or these bytes into the one that is there.
fn put(tree: &mut Tree, path: &[Name], bytes: Bytes) -> Result<(), LineFault>
    ensures { Does result (of_tree (put path.now bytes (kept tree.old))) (kept tree.new) }
{
    match tree.put_stream(path, bytes) {
        Ok(()) => Ok(()),
        Err(fault) => Err(LineFault::from(fault)),
    }
}

/// So many bytes that are all the same.
fn filled(alloc: Global, count: u32, byte: u8) -> Result<Bytes, AllocError>
    ensures { IfOk result (λ bytes. bytes ≡ replicate count byte) }
{
    Bytes::from_vec(alloc, vec![in alloc; byte; count as usize]?)
}

/// Puts a stream of so many equal bytes at a path, or these bytes into the one that is there.
fn fill(
    alloc: Global,
    tree: &mut Tree,
    path: &[Name],
    count: u32,
    byte: u8,
) -> Result<(), LineFault>
    ensures { Does result (of_tree (put path.now (replicate count byte) (kept tree.old))) (kept tree.new) }
{
    match filled(alloc, count, byte) {
        Ok(bytes) => put(tree, path, bytes),
        // Whether the stream could else have been put is told by one without bytes.
        Err(_) => match tree.put_stream(path, Bytes::new(alloc)) {
            Ok(()) => Err(LineFault::NoMemory),
            Err(fault) => Err(LineFault::from(fault)),
        },
    }
}

/// Makes a storage of a class at a path.
fn make_storage(tree: &mut Tree, path: &[Name], class: ClassId) -> Result<(), LineFault>
    ensures { Does result (of_tree (made path.now class 0 (kept tree.old))) (kept tree.new) }
{
    match tree.make_storage(path, class, 0) {
        Ok(()) => Ok(()),
        Err(fault) => Err(LineFault::from(fault)),
    }
}

/// Removes what stands at a path.
fn remove(tree: &mut Tree, path: &[Name]) -> Result<(), LineFault>
    ensures { Does result (of_tree (removed path.now (kept tree.old))) (kept tree.new) }
{
    match tree.remove(path) {
        Ok(()) => Ok(()),
        Err(fault) => Err(LineFault::from(fault)),
    }
}

/// Gives what stands at a path the name of a path of one name.
fn rename(tree: &mut Tree, path: &[Name], name: Path) -> Result<(), LineFault>
    ensures { Does result (at_path name (λ new. with_name new (λ n. of_tree (renamed path.now n (kept tree.old)))))
        (kept tree.new) }
{
    match name.names() {
        Ok(new) => rename_to(tree, path, new),
        Err(fault) => Err(LineFault::Name(fault)),
    }
}

/// Gives what stands at a path the one name among these.
///
/// Refused: `NameForbidden` where they are more, as no name has the slash between them.
fn rename_to(tree: &mut Tree, path: &[Name], new: &[Name]) -> Result<(), LineFault>
    ensures { Does result (with_name new.now (λ n. of_tree (renamed path.now n (kept tree.old)))) (kept tree.new) }
{
    match new {
        [name] => rename_child(tree, path, name),
        _ => Err(LineFault::Name(DirFault::NameForbidden)),
    }
}

/// Gives what stands at a path this name.
fn rename_child(tree: &mut Tree, path: &[Name], name: &Name) -> Result<(), LineFault>
    ensures { Does result (of_tree (renamed path.now name.now (kept tree.old))) (kept tree.new) }
{
    match tree.rename(path, name.copy()) {
        Ok(()) => Ok(()),
        Err(fault) => Err(LineFault::from(fault)),
    }
}

/// Sets the class id or the state bits of the storage at a path, the root at the empty one.
fn set_mark(alloc: Global, tree: &mut Tree, path: &[Name], mark: Mark) -> Result<(), LineFault>
    ensures { Does result (of_tree (marked mark path.now (kept tree.old))) (kept tree.new) }
{
    let nothing = Tree::new(alloc, ClassId::from_bytes([0; 16]), 0);
    let mut root = mem::replace(tree, nothing).into_root();
    let done = mark_at(&mut root, path, mark);
    *tree = Tree::from_root(alloc, root);
    match done {
        Ok(()) => Ok(()),
        Err(fault) => Err(LineFault::from(fault)),
    }
}
