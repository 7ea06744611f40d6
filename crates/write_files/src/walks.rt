//! Storages that are walked child by child, whatever holds them.

ghost use Rattle.cfb_layout.specs.Directory.{children_in, class_in, state_in};
ghost use Rattle.std.specs.Prelude.{◌≡◌, ◌≤◌, IfNone, IfSome, List, length, ℕ};
ghost use Rattle.cfb_entries.specs.Tree.{Children, Tree, none};
ghost use Rattle.write_files.specs.Walks.{Steps};

use tree_values::class_id::ClassId;

/// What a child is.
#[derive(Clone, Copy)]
pub enum What<B> {
    /// A stream of so many bytes.
    Stream(usize),
    /// A storage.
    Storage(B),
}

/// A child that a walk comes to.
#[derive(Clone, Copy)]
pub struct Child<N, B> {
    pub name: N,
    pub what: What<B>,
}

/// A storage whose children are come to one after another, in name order.
pub trait Branch: Copy {
    /// A child's name.
    type Name: Copy;

    /// How far a walk over the children has come.
    type Walk: Drop;

    // How a name is spelled.
    ghost spelled: { Self.Name → List ℕ };

    // The tree that it stands for.
    ghost tree: { Self → Tree };

    // The children that a walk has before it.
    ghost before: { Self.Walk → Children };

    /// The class id.
    fn class(self) -> ClassId
        ensures { result ≡ class_in (tree self) };

    /// The state bits.
    fn state(self) -> u32
        ensures { result ≡ state_in (tree self) };

    /// For how many children room is made. It is no part of what the tree is.
    fn count(self) -> usize;

    /// A walk over all children.
    fn walk(self) -> Self::Walk
        ensures { before result ≡ children_in (tree self) };

    /// The next child of a walk, which is behind it then.
    fn next(walk: &mut Self::Walk) -> Option<Child<Self::Name, Self>>
        ensures some { IfSome result (λ child. Steps tree (before walk.old) (spelled child.name) child.what
            (before walk.new)) }
        ensures none { IfNone result (before walk.old ≡ none) };

    /// The characters of a name.
    fn spell(name: &Self::Name) -> &[u8]
        ensures same { result.now ≡ spelled name.now }
        ensures short { length result.now ≤ 31 };
}
