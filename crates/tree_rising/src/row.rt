//! Streams that wait in a row.

ghost use Rattle.cfb_names.specs.Names.{IsName, key, key_cmp};
ghost use Rattle.tree_rising.specs.Below.{AreBelow};
ghost use Rattle.tree_rising.specs.Row.{entries_of};
ghost use Rattle.std.specs.List.Sorted.{IsStrictlySortedBy};
ghost use Rattle.std.specs.Map.{keys_of};
ghost use Rattle.std.specs.Prelude.{◌≡◌, ◌↔◌, ◌++◌, ◌∷◌, [], IfOk, IsTrue, OnErr, OnOk};

use crate::lists::ByteLists;
use cfb_names::key::Key;
use cfb_names::name::{Name, key};
use std::alloc::{AllocError, Global};
use std::collections::BTreeMap;
use std::marker::Model;
use tree_storage::nodes::Node;
use tree_values::bytes::Bytes;

/// The names and bytes of streams in a row. The bytes of many streams lie together, so that few blocks of memory are
/// asked for.
#[derive(Drop)]
pub struct Row {
    names: Vec<Name>,
    contents: ByteLists,
}

impl Model for Row {
    ghost use Rattle.std.specs.List.{zip};
    ghost use Rattle.std.specs.Prelude.{◌≡◌, List, ℕ, length};

    ghost Value = { List (List ℕ × List ℕ) };

    ghost view = { λ r. zip r.names.items r.contents };

    ghost invariant = { λ r. length r.contents ≡ length r.names.items };
}

impl Row {
    /// No streams, which take no memory.
    pub fn new(alloc: Global) -> Row
        ensures { result ≡ [] }
    {
        Row {
            names: Vec::new(alloc),
            contents: ByteLists::new(alloc),
        }
    }

    /// Whether a name comes behind those of all streams, which ascend.
    pub fn is_behind(&self, name: &Name) -> bool
        requires { IsStrictlySortedBy key_cmp (keys_of (entries_of self.now)) }
        ensures behind { IsTrue result ↔ AreBelow (key name.now) (keys_of (entries_of self.now)) }
        ensures valid { IsName name.now }
    {
        let key = key_of(name);
        match self.names.last() {
            Some(last) => key_of(last).cmp(&key).is_lt(),
            None => true,
        }
    }

    /// Puts a stream of this name, with a copy of these bytes, behind all others.
    ///
    /// Refused for want of memory alone; a refusal changes nothing.
    pub fn push(&mut self, alloc: Global, name: Name, bytes: &[u8]) -> Result<(), AllocError>
        ensures added { OnOk result (self.new ≡ self.old ++ (name, bytes.now) ∷ []) }
        ensures kept { OnErr result (self.new ≡ self.old) }
    {
        // Where there is room for the name before, there is none without bytes.
        self.names.reserve(1)?;
        self.contents.push(alloc, bytes)?;
        self.names.push_reserved(name);
        Ok(())
    }

    /// Puts a stream of this name and these bytes, without a copy of them, behind all others.
    ///
    /// Refused for want of memory alone; a refusal changes nothing.
    pub fn push_whole(&mut self, alloc: Global, name: Name, bytes: Bytes) -> Result<(), AllocError>
        ensures added { OnOk result (self.new ≡ self.old ++ (name, bytes) ∷ []) }
        ensures kept { OnErr result (self.new ≡ self.old) }
    {
        self.names.reserve(1)?;
        self.contents.push_whole(alloc, bytes)?;
        self.names.push_reserved(name);
        Ok(())
    }

    /// The map of the children that these streams become, made at once where their keys ascend. A child is made as it
    /// is asked for, so that only the row which the map is made of holds children.
    ///
    /// Refused for want of memory, and for more streams than can be counted.
    pub fn into_map(self, alloc: Global) -> Result<BTreeMap<Key, (Name, Node)>, AllocError>
        ensures { IfOk result (λ map. IsStrictlySortedBy key_cmp (keys_of (entries_of self))
            → map.entries ≡ entries_of self) }
    {
        let Row { names, contents } = self;
        let contents = contents.into_parts(alloc)?;
        names
            .into_iter()
            .zip(contents)
            .map(|(name, bytes)| (key(&name), (name, Node::Stream(bytes))))
            .collect(alloc)
    }
}

/// The key of a name.
fn key_of(name: &Name) -> Key
    ensures key { result ≡ key name.now }
    ensures valid { IsName name.now }
{
    // The characters are read for what is promised of them: that the name is valid.
    let _ = name.as_bytes();
    key(name)
}
