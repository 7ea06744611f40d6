//! Storages.

ghost use Rattle.std.specs.Prelude.{◌≡◌, ◌≢◌, [], ◌∷◌, Err, IfOk, OnOk, IsSome};
ghost use Rattle.std.specs.BTreeMap.{is_at};
ghost use Rattle.std.specs.Map.{lookup, set_value};
ghost use Rattle.tree_storage.specs.declared.fault.TreeFault.TheVariants.{NoMemory};
ghost use Rattle.cfb_names.specs.Names.{IsName, key, key_cmp};
ghost use Rattle.tree_storage.specs.Laws.{IsNewName, LeavesNames};
ghost use Rattle.cfb_entries.specs.Tree.{child_names, none, tree};
ghost use Rattle.tree_storage.specs.Change.{Changes, Outcome, inner, look, map_ok, put_seen};
ghost use Rattle.tree_storage.specs.View.{found_seen, moved, seen, view};

use crate::fault::TreeFault;
pub use crate::nodes::{Node, Storage};
use cfb_names::key::Key;
use cfb_names::name::{Name, key};
use std::alloc::{AllocError, Global};
use std::collections::BTreeMap;
use tree_values::bytes::Bytes;
use tree_values::class_id::ClassId;

/// What stands at a path.
#[derive(Drop)]
pub enum Found<'a> {
    /// A stream's bytes.
    Stream(&'a Bytes),
    /// A storage.
    Storage(&'a Storage),
}

/// A change of what stands under a name of a storage.
#[derive(Drop)]
pub enum Edit {
    /// Makes a stream of these bytes, or replaces the bytes of one.
    Put(Bytes),
    /// Makes a stream of these bytes where nothing stands.
    Add(Bytes),
    /// Makes a storage of this class id and these state bits, where it is known to fit.
    Make(ClassId, u32, bool),
    /// Removes what stands there.
    Remove,
    /// Gives it this name.
    Rename(Name),
}

/// The key of a name.
fn key_of(name: &Name) -> Key
    ensures key { result ≡ key name.now }
    ensures valid { IsName name.now }
{
    // The characters are read for what is promised of them: that the name is valid.
    let _ = name.as_bytes();
    key(name)
}

/// What stands at a path from this storage down; the storage itself at the empty one.
///
/// Refused: `NotFound` where a name of the path isn't there; `WrongKind` where a stream stands on its way. The first
/// name of the path that meets one of these decides.
#[cycle(gets)]
pub fn get<'a>(storage: &'a Storage, path: &[Name]) -> Result<Found<'a>, TreeFault>
    ensures { map_ok found_seen result ≡ look path.now (inner (view storage.now)) }
{
    match path {
        [] => Ok(Found::Storage(storage)),
        [name, rest @ ..] => match storage.children.get(&key(name)) {
            Some(child) => get_below(&child.1, rest),
            None => Err(TreeFault::NotFound),
        },
    }
}

/// The names of its children, as they are spelled, in name order.
pub fn names(storage: &Storage, alloc: Global) -> Result<Vec<Name>, AllocError>
    ensures { IfOk result (λ names. names.items ≡ child_names (view storage.now)) }
{
    let mut names = Vec::new(alloc);
    for (_, child) in storage.children.iter() {
        names.push(child.0.copy())?;
    }
    Ok(names)
}

/// An equal storage, with all that it holds.
#[cycle(copies)]
pub fn copy(storage: &Storage, alloc: Global) -> Result<Storage, AllocError>
    ensures { IfOk result (λ s. view s ≡ view storage.now) }
{
    let mut children = BTreeMap::new(alloc);
    for (key, child) in storage.children.iter() {
        children.insert(*key, (child.0.copy(), copy_node(&child.1, alloc)?))?;
    }
    Ok(Storage {
        class: storage.class,
        state: storage.state,
        children,
    })
}

/// What stands at a path below.
#[cycle(gets)]
fn get_below<'a>(node: &'a Node, path: &[Name]) -> Result<Found<'a>, TreeFault>
    ensures { map_ok found_seen result ≡ look path.now (seen node.now) }
{
    match node {
        Node::Stream(bytes) => {
            if !path.is_empty() {
                return Err(TreeFault::WrongKind);
            }
            Ok(Found::Stream(bytes))
        }
        Node::Storage(inner) => get(inner, path),
    }
}

/// An equal node.
#[cycle(copies)]
fn copy_node(node: &Node, alloc: Global) -> Result<Node, AllocError>
    ensures { IfOk result (λ n. seen n ≡ seen node.now) }
{
    match node {
        Node::Stream(bytes) => Ok(Node::Stream(bytes.copy(alloc)?)),
        Node::Storage(inner) => Ok(Node::Storage(copy(inner, alloc)?)),
    }
}

/// Changes what stands at a path.
#[cycle(edits)]
pub(crate) fn edit_at(
    storage: &mut Storage,
    alloc: Global,
    path: &[Name],
    edit: Edit,
) -> Result<(), TreeFault>
    ensures change { Changes result edit path.now (inner (view storage.old)) (inner (view storage.new)) }
    ensures names { OnOk result (LeavesNames edit path.now) }
    ensures no_memory { edit ≡ Edit.Remove → result ≢ Err NoMemory }
{
    match path {
        [] => Err(TreeFault::WrongKind),
        [name] => edit_child(storage, alloc, name, edit),
        [name, rest @ ..] => match storage.children.get_mut(&key(name)) {
            Some(child) => edit_below(&mut child.1, alloc, rest, edit),
            None => Err(TreeFault::NotFound),
        },
    }
}

/// Changes what stands under a name.
fn edit_child(
    storage: &mut Storage,
    alloc: Global,
    name: &Name,
    edit: Edit,
) -> Result<(), TreeFault>
    ensures names { IsNewName edit name.now }
    ensures no_memory { edit ≡ Edit.Remove → result ≢ Err NoMemory }
    ensures change { Changes result edit (name.now ∷ []) (inner (view storage.old)) (inner (view storage.new)) }
{
    match edit {
        Edit::Put(bytes) => put_child(storage, name, bytes),
        Edit::Add(bytes) => add_child(storage, name, bytes),
        Edit::Make(class, state, fits) => make_child(storage, alloc, name, class, state, fits),
        Edit::Remove => remove_child(storage, name),
        Edit::Rename(new) => rename_child(storage, alloc, name, new),
    }
}

fn put_child(storage: &mut Storage, name: &Name, bytes: Bytes) -> Result<(), TreeFault>
    ensures names { IsName name.now }
    ensures change { Changes result (Edit.Put bytes) (name.now ∷ []) (inner (view storage.old))
        (inner (view storage.new)) }
{
    let key = key_of(name);
    match storage.children.get_mut(&key) {
        Some(child) => put_into(&mut child.1, bytes),
        None => match storage
            .children
            .insert(key, (name.copy(), Node::Stream(bytes)))
        {
            Ok(_) => Ok(()),
            Err(_) => Err(TreeFault::NoMemory),
        },
    }
}

fn add_child(storage: &mut Storage, name: &Name, bytes: Bytes) -> Result<(), TreeFault>
    ensures names { IsName name.now }
    ensures change { Changes result (Edit.Add bytes) (name.now ∷ []) (inner (view storage.old))
        (inner (view storage.new)) }
{
    let key = key_of(name);
    match storage
        .children
        .insert(key, (name.copy(), Node::Stream(bytes)))
    {
        Ok(None) => Ok(()),
        Ok(Some(there)) => {
            put_back(storage, &key, there);
            Err(TreeFault::Exists)
        }
        Err(_) => Err(TreeFault::NoMemory),
    }
}

/// Puts a child back into the place that another one took.
fn put_back(storage: &mut Storage, key: &Key, there: (Name, Node))
    ensures class { storage.new.class ≡ storage.old.class }
    ensures state { storage.new.state ≡ storage.old.state }
    ensures entries { IsSome (lookup (is_at (key_cmp key.now)) storage.old.children.entries)
        → storage.new.children.entries ≡ set_value (is_at (key_cmp key.now)) storage.old.children.entries there }
{
    match storage.children.get_mut(key) {
        Some(child) => *child = there,
        None => {}
    }
}

fn make_child(
    storage: &mut Storage,
    alloc: Global,
    name: &Name,
    class: ClassId,
    state: u32,
    fits: bool,
) -> Result<(), TreeFault>
    ensures names { IsName name.now }
    ensures change { Changes result (Edit.Make class state fits) (name.now ∷ []) (inner (view storage.old))
        (inner (view storage.new)) }
{
    let key = key_of(name);
    if storage.children.contains_key(&key) {
        return Err(TreeFault::Exists);
    }
    if !fits {
        return Err(TreeFault::TooDeep);
    }
    let made = Storage::new(alloc, class, state);
    match storage
        .children
        .insert(key, (name.copy(), Node::Storage(made)))
    {
        Ok(_) => Ok(()),
        Err(_) => Err(TreeFault::NoMemory),
    }
}

fn rename_child(
    storage: &mut Storage,
    alloc: Global,
    name: &Name,
    new: Name,
) -> Result<(), TreeFault>
    ensures names { IsName new }
    ensures change { Changes result (Edit.Rename new) (name.now ∷ []) (inner (view storage.old))
        (inner (view storage.new)) }
{
    let key = key(name);
    let new_key = key_of(&new);
    if new_key.cmp(&key).is_eq() {
        return match storage.children.get_mut(&key) {
            Some(child) => {
                child.0 = new;
                Ok(())
            }
            None => Err(TreeFault::NotFound),
        };
    }
    if !storage.children.contains_key(&key) {
        return Err(TreeFault::NotFound);
    }
    if storage.children.contains_key(&new_key) {
        return Err(TreeFault::Exists);
    }
    // The room for the entry is taken before it moves.
    let room = (new, Node::Stream(Bytes::new(alloc)));
    if storage.children.insert(new_key, room).is_err() {
        return Err(TreeFault::NoMemory);
    }
    move_child(storage, &key, &new_key);
    Ok(())
}

/// Moves what stands under a key to the place made under another.
fn move_child(storage: &mut Storage, key: &Key, new_key: &Key)
    ensures class { storage.new.class ≡ storage.old.class }
    ensures state { storage.new.state ≡ storage.old.state }
    ensures entries { storage.new.children.entries ≡ moved key.now new_key.now storage.old.children.entries }
{
    let Some((_, node)) = storage.children.remove(key) else {
        return;
    };
    match storage.children.get_mut(new_key) {
        Some(child) => child.1 = node,
        None => {}
    }
}

fn remove_child(storage: &mut Storage, name: &Name) -> Result<(), TreeFault>
    ensures no_memory { result ≢ Err NoMemory }
    ensures change { Changes result Edit.Remove (name.now ∷ []) (inner (view storage.old)) (inner (view storage.new)) }
{
    if storage.children.remove(&key(name)).is_none() {
        return Err(TreeFault::NotFound);
    }
    Ok(())
}

/// The change at a path below.
#[cycle(edits)]
fn edit_below(node: &mut Node, alloc: Global, path: &[Name], edit: Edit) -> Result<(), TreeFault>
    ensures change { Changes result edit path.now (seen node.old) (seen node.new) }
    ensures names { OnOk result (LeavesNames edit path.now) }
    ensures no_memory { edit ≡ Edit.Remove → result ≢ Err NoMemory }
{
    match node {
        Node::Stream(_) => Err(TreeFault::WrongKind),
        Node::Storage(inner) => edit_at(inner, alloc, path, edit),
    }
}

/// Makes this stream's bytes others.
fn put_into(node: &mut Node, bytes: Bytes) -> Result<(), TreeFault>
    ensures { Outcome result (put_seen bytes (seen node.old)) (seen node.old) (seen node.new) }
{
    match node {
        Node::Stream(old) => {
            *old = bytes;
            Ok(())
        }
        Node::Storage(_) => Err(TreeFault::WrongKind),
    }
}
