//! Walks over the children of storages in memory.

ghost use Rattle.tree_storage.specs.NodeView.{children, seen, view};
ghost use Rattle.write_files.specs.Walks.{Is};

use crate::walks::{Branch, Child, What};
use cfb_names::key::Key;
use cfb_names::name::Name;
use std::collections::btree_map::Iter;
use tree_storage::nodes::{Node, Storage};
use tree_values::class_id::ClassId;

impl<'n> Branch for &'n Storage {
    type Name = &'n Name;

    type Walk = Iter<'n, Key, (Name, Node)>;

    ghost spelled = { λ name. name.now };

    ghost tree = { λ s. view s.now };

    ghost before = { λ walk. children walk };

    fn class(self) -> ClassId {
        self.class
    }

    fn state(self) -> u32 {
        self.state
    }

    fn count(self) -> usize {
        self.children.len()
    }

    fn walk(self) -> Iter<'n, Key, (Name, Node)> {
        self.children.iter()
    }

    fn next(walk: &mut Iter<'n, Key, (Name, Node)>) -> Option<Child<&'n Name, &'n Storage>> {
        match walk.next() {
            Some((_, child)) => Some(Child {
                name: &child.0,
                what: what_of(&child.1),
            }),
            None => None,
        }
    }

    fn spell<'a>(name: &'a &'n Name) -> &'a [u8] {
        name.as_bytes()
    }
}

/// What a child of a storage in memory is.
fn what_of(node: &Node) -> What<&Storage>
    ensures { Is (λ s. view s.now) result (seen node.now) }
{
    match node {
        Node::Stream(bytes) => What::Stream(bytes.len()),
        Node::Storage(inner) => What::Storage(inner),
    }
}
