//! A tree with transactions.
//!
//! A path is a list of names, from the root down. Two names that are equal in upper case are one name, spelled as
//! where the child was made (MS-CFB 2.6.4). The empty path is the root, which only `get` takes.

ghost use Rattle.std.specs.Prelude.{◌≡◌, ◌≢◌, [], map, Err};
ghost use Rattle.tree_storage.specs.declared.fault.TreeFault.TheVariants.{NoMemory};
ghost use Rattle.cfb_entries.specs.Tree.{none, tree};
ghost use Rattle.tree_storage.specs.Change.{Outcome, inner, look, map_ok};
ghost use Rattle.tree_storage.specs.View.{found_seen, view};
ghost use Rattle.cfb_entries.specs.Whole.{AreWhole, IsTree};

use crate::fault::TreeFault;
use crate::storage::{Edit, Found, Storage, edit_at, get};
use cfb_names::name::Name;
use std::alloc::Global;
use tree_values::bytes::Bytes;
use tree_values::class_id::ClassId;

/// How many storages may stand inside one another below the root.
const DEEPEST: usize = 32;

/// How many transactions may be open.
const MOST_OPEN: usize = 8;

/// A tree: its root, and the trees that open transactions began with, the newest last.
///
/// It is whole at any time: names are valid, children stand in name order and no two have one name, and at most 32
/// storages stand inside one another below the root.
#[derive(Drop)]
pub struct Tree {
    alloc: Global,
    root: Storage,
    saved: Vec<Storage>,
    ghost whole: { ∥ AreWhole (view root) (map view saved.items) ∥₁ },
}

impl Tree {
    ghost use Rattle.tree_storage.specs.Kept.{beginning, committing, reverting, changing, kept, put, added, made};
    ghost use Rattle.tree_storage.specs.Kept.{removed, renamed};

    /// A root without children, with this class id and these state bits, outside transactions. What later calls take
    /// comes from this allocator.
    pub fn new(alloc: Global, class: ClassId, state: u32) -> Tree
        ensures { kept result ≡ record { now = tree class state none; saved = [] } }
    {
        Tree {
            alloc,
            root: Storage::new(alloc, class, state),
            saved: Vec::new(alloc),
        }
    }

    /// The root, which is whole.
    pub fn root(&self) -> &Storage
        ensures value { view result.now ≡ (kept self.now).now }
        ensures whole { ∥ IsTree 32 (view result.now) ∥₁ }
    {
        &self.root
    }

    /// What stands at a path; the root at the empty one.
    ///
    /// Refused: `NotFound` where a name of the path isn't there; `WrongKind` where a stream stands on its way. The
    /// first name of the path that meets one of these decides.
    pub fn get(&self, path: &[Name]) -> Result<Found<'_>, TreeFault>
        ensures { map_ok found_seen result ≡ look path.now (inner (kept self.now).now) }
    {
        get(&self.root, path)
    }

    /// Makes the stream at a path, or replaces its bytes, with its old spelling.
    ///
    /// Refused: `NotFound` where a storage on the way isn't there; `WrongKind` for the empty path, a stream on the way
    /// or a storage at the path; then `NoMemory`. A refusal changes nothing.
    pub fn put_stream(&mut self, path: &[Name], bytes: Bytes) -> Result<(), TreeFault>
        ensures { Outcome result (put path.now bytes (kept self.old)) (kept self.old) (kept self.new) }
    {
        edit_at(&mut self.root, self.alloc, path, Edit::Put(bytes))
    }

    /// Makes a stream of these bytes at a path.
    ///
    /// Refused: `NotFound` where a storage on the way isn't there; `WrongKind` for the empty path or a stream on the
    /// way; `Exists` where something stands at the path; then `NoMemory`. A refusal changes nothing.
    pub fn make_stream(&mut self, path: &[Name], bytes: Bytes) -> Result<(), TreeFault>
        ensures { Outcome result (added path.now bytes (kept self.old)) (kept self.old) (kept self.new) }
    {
        edit_at(&mut self.root, self.alloc, path, Edit::Add(bytes))
    }

    /// Makes a storage without children at a path.
    ///
    /// Refused: `NotFound` where a storage on the way isn't there; `WrongKind` for the empty path or a stream on the
    /// way; `Exists` where something stands at the path; `TooDeep` for a path of more than 32 names; then `NoMemory`. A
    /// refusal changes nothing.
    pub fn make_storage(
        &mut self,
        path: &[Name],
        class: ClassId,
        state: u32,
    ) -> Result<(), TreeFault>
        ensures { Outcome result (made path.now class state (kept self.old)) (kept self.old) (kept self.new) }
    {
        let fits = path.len() <= DEEPEST;
        edit_at(
            &mut self.root,
            self.alloc,
            path,
            Edit::Make(class, state, fits),
        )
    }

    /// Removes what stands at a path, a storage with all that it holds. It takes no memory.
    ///
    /// Refused: `NotFound`; `WrongKind` for the empty path or a stream on the way. A refusal changes nothing.
    pub fn remove(&mut self, path: &[Name]) -> Result<(), TreeFault>
        ensures change { Outcome result (removed path.now (kept self.old)) (kept self.old) (kept self.new) }
        ensures no_memory { result ≢ Err NoMemory }
    {
        edit_at(&mut self.root, self.alloc, path, Edit::Remove)
    }

    /// Gives what stands at a path another name in its storage; its own name, spelled otherwise, changes the spelling.
    ///
    /// Refused: `NotFound`; `WrongKind` for the empty path or a stream on the way; `Exists` where a sibling has the
    /// name; then `NoMemory`. A refusal changes nothing.
    pub fn rename(&mut self, path: &[Name], name: Name) -> Result<(), TreeFault>
        ensures { Outcome result (renamed path.now name (kept self.old)) (kept self.old) (kept self.new) }
    {
        edit_at(&mut self.root, self.alloc, path, Edit::Rename(name))
    }

    /// Begins a transaction, inside those that are open.
    ///
    /// Refused: `TooDeep` where eight are open; then `NoMemory`. A refusal changes nothing.
    pub fn begin(&mut self) -> Result<(), TreeFault>
        ensures { Outcome result (beginning (kept self.old)) (kept self.old) (kept self.new) }
    {
        if self.saved.len() >= MOST_OPEN {
            return Err(TreeFault::TooDeep);
        }
        let Ok(copy) = crate::storage::copy(&self.root, self.alloc) else {
            return Err(TreeFault::NoMemory);
        };
        match self.saved.push(copy) {
            Ok(()) => Ok(()),
            Err(_) => Err(TreeFault::NoMemory),
        }
    }

    /// Ends the newest open transaction and keeps its changes. It takes no memory.
    ///
    /// Refused: `NoTransaction` where none is open.
    pub fn commit(&mut self) -> Result<(), TreeFault>
        ensures change { Outcome result (committing (kept self.old)) (kept self.old) (kept self.new) }
        ensures no_memory { result ≢ Err NoMemory }
    {
        match self.saved.pop() {
            Some(_) => Ok(()),
            None => Err(TreeFault::NoTransaction),
        }
    }

    /// Ends the newest open transaction and takes back its changes: the tree is again as its `begin` found it. It takes
    /// no memory.
    ///
    /// Refused: `NoTransaction` where none is open.
    pub fn revert(&mut self) -> Result<(), TreeFault>
        ensures change { Outcome result (reverting (kept self.old)) (kept self.old) (kept self.new) }
        ensures no_memory { result ≢ Err NoMemory }
    {
        match self.saved.pop() {
            Some(root) => {
                self.root = root;
                Ok(())
            }
            None => Err(TreeFault::NoTransaction),
        }
    }
}

mod owned;
