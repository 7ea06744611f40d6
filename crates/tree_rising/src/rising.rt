//! Trees whose streams are made in name order.

ghost use Rattle.cfb_names.specs.Names.{key_cmp};
ghost use Rattle.std.proofs.Props.{props};
ghost use Rattle.std.specs.List.Sorted.{IsStrictlySortedBy};
ghost use Rattle.std.specs.Map.{keys_of};
ghost use Rattle.std.specs.Prelude.{◌≡◌, [], IfOk};
ghost use Rattle.cfb_entries.specs.Tree.{none, tree};
ghost use Rattle.tree_rising.specs.Row.{entries_of};
ghost use Rattle.tree_storage.specs.View.{children};
ghost use Rattle.cfb_entries.specs.Whole.{IsTree};

use crate::row::Row;
use cfb_names::name::Name;
use std::alloc::{AllocError, Global};
use tree_storage::nodes::Storage;
use tree_storage::tree::Tree;
use tree_values::bytes::Bytes;
use tree_values::class_id::ClassId;

/// A tree whose root has streams alone, each made behind all others. They wait in a row and are made into the root's
/// children at once, which takes less time than one after another. The row has their names and bytes alone, half of
/// what a child takes with its key.
#[derive(Drop)]
pub struct Rising {
    class: ClassId,
    state: u32,
    streams: Row,
    ghost ascending: { IsStrictlySortedBy key_cmp (keys_of (entries_of streams)) } by { Prim.hlevel props },
    ghost whole: { ∥ IsTree 32 (tree class state (children (entries_of streams))) ∥₁ },
}

impl Rising {
    ghost use Rattle.tree_storage.specs.Kept.{kept};
    ghost use Rattle.tree_rising.specs.Rising.{MakesLast, rising};

    /// A root without children, with this class id and these state bits.
    pub fn new(alloc: Global, class: ClassId, state: u32) -> Rising
        ensures { rising result ≡ record { now = tree class state none; saved = [] } }
    {
        Rising {
            class,
            state,
            streams: Row::new(alloc),
        }
    }

    /// Makes a stream of a copy of these bytes, where its name comes behind those of all others, and says whether it
    /// did.
    ///
    /// Refused: want of memory. A refusal changes nothing.
    pub fn make_last(
        &mut self,
        alloc: Global,
        name: &Name,
        bytes: &[u8],
    ) -> Result<bool, AllocError>
        ensures { MakesLast result name.now bytes.now self.old self.new }
    {
        if !self.streams.is_behind(name) {
            return Ok(false);
        }
        self.streams.push(alloc, name.copy(), bytes)?;
        Ok(true)
    }

    /// Makes a stream of these bytes, without a copy of them, where its name comes behind those of all others, and says
    /// whether it did. This is for many bytes, which are kept in memory of their own.
    ///
    /// Refused: want of memory. A refusal changes nothing.
    pub fn make_last_whole(
        &mut self,
        alloc: Global,
        name: &Name,
        bytes: Bytes,
    ) -> Result<bool, AllocError>
        ensures { MakesLast result name.now bytes self.old self.new }
    {
        if !self.streams.is_behind(name) {
            return Ok(false);
        }
        self.streams.push_whole(alloc, name.copy(), bytes)?;
        Ok(true)
    }

    /// The tree, outside transactions. What later calls take comes from this allocator.
    ///
    /// Refused for want of memory, and for more streams than can be counted.
    pub fn into_tree(self, alloc: Global) -> Result<Tree, AllocError>
        ensures { IfOk result (λ tree. kept tree ≡ rising self) }
    {
        let Rising {
            class,
            state,
            streams,
        } = self;
        let children = streams.into_map(alloc)?;
        Ok(Tree::from_root(
            alloc,
            Storage {
                class,
                state,
                children,
            },
        ))
    }
}
