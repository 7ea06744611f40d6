//! Trees that are taken apart and made whole, so that nothing that they hold is copied.

use super::Tree;
use crate::storage::Storage;
use std::alloc::Global;

impl Tree {
    ghost use Rattle.std.specs.Prelude.{◌≡◌, []};
    ghost use Rattle.tree_storage.specs.Kept.{kept};
    ghost use Rattle.tree_storage.specs.View.{view};
    ghost use Rattle.cfb_entries.specs.Whole.{IsTree};

    /// The tree of this root, outside transactions. What later calls take comes from this allocator.
    pub fn from_root(alloc: Global, root: Storage) -> Tree
        requires { ∥ IsTree 32 (view root) ∥₁ }
        ensures { kept result ≡ record { now = view root; saved = [] } }
    {
        Tree {
            alloc,
            root,
            saved: Vec::new(alloc),
        }
    }

    /// The root, which is whole. What open transactions kept is dropped. It takes no memory.
    pub fn into_root(self) -> Storage
        ensures value { view result ≡ (kept self).now }
        ensures whole { ∥ IsTree 32 (view result) ∥₁ }
    {
        self.root
    }
}
