//! Storages.

ghost use Rattle.std.specs.Prelude.{◌≡◌};
ghost use Rattle.cfb_entries.specs.Tree.{none, tree};
ghost use Rattle.tree_storage.specs.NodeView.{view};

use cfb_names::key::Key;
use cfb_names::name::Name;
use std::alloc::Global;
use std::collections::BTreeMap;
use tree_values::bytes::Bytes;
use tree_values::class_id::ClassId;

/// A storage: its class id, its state bits and its children.
#[cycle(storage)]
#[derive(Drop)]
pub struct Storage {
    /// The class id.
    pub class: ClassId,
    /// The state bits.
    pub state: u32,
    /// The children in name order, each under the key of its name, with the name as it is spelled.
    pub children: BTreeMap<Key, (Name, Node)>,
}

/// A stream, or a storage.
#[cycle(storage)]
#[derive(Drop)]
pub enum Node {
    /// A stream's bytes.
    Stream(Bytes),
    /// A storage.
    Storage(Storage),
}

impl Storage {
    /// A storage without children.
    pub fn new(alloc: Global, class: ClassId, state: u32) -> Storage
        ensures { view result ≡ tree class state none }
    {
        Storage {
            class,
            state,
            children: BTreeMap::new(alloc),
        }
    }
}
