//! Paths that choose of a tree, and what is left of them below a child.

ghost use Rattle.folder_commands.specs.Chosen.{left_of, one, step};
ghost use Rattle.std.specs.Prelude.{[], ◌++◌, ◌≡◌, ◌∷◌, IfOk, OnOk};

use cfb_names::key::Key;
use cfb_names::name::{Name, key};
use std::alloc::{AllocError, Global};
use std::marker::Model;

/// A path in a tree, of the names of storages and of a stream. That of the root is empty.
#[derive(Drop)]
pub struct TreePath {
    names: Vec<Name>,
}

impl Model for TreePath {
    ghost use Rattle.std.specs.Prelude.{List, ℕ};

    ghost Value = { List (List ℕ) };

    ghost view = { λ p. p.names.items };
}

impl TreePath {
    /// The path of these names.
    pub fn new(alloc: Global, names: &[Name]) -> Result<TreePath, AllocError>
        ensures { IfOk result (λ path. path ≡ names.now) }
    {
        let mut own = Vec::new(alloc);
        for name in names {
            own.push(name.copy())?;
        }
        Ok(TreePath { names: own })
    }

    /// Its names.
    pub(crate) fn names(&self) -> &[Name]
        ensures { result.now ≡ self.now }
    {
        &self.names
    }
}

/// What is left of paths below the child under a key.
pub(crate) fn left_of(
    alloc: Global,
    paths: &[TreePath],
    key: &Key,
) -> Result<Vec<TreePath>, AllocError>
    ensures { IfOk result (λ left. left.items ≡ left_of key.now paths.now) }
{
    let mut left = Vec::new(alloc);
    for path in paths {
        push_left(alloc, &mut left, path, key)?;
    }
    Ok(left)
}

/// Adds what is left of a path below the child under a key, if the child is on it or below it.
fn push_left(
    alloc: Global,
    left: &mut Vec<TreePath>,
    path: &TreePath,
    child: &Key,
) -> Result<(), AllocError>
    ensures { OnOk result (left.new.items ≡ left.old.items ++ one (step child.now path.now)) }
{
    push_behind(alloc, left, &path.names, child)
}

/// Adds what is left of the path of these names, likewise.
fn push_behind(
    alloc: Global,
    left: &mut Vec<TreePath>,
    names: &[Name],
    child: &Key,
) -> Result<(), AllocError>
    ensures { OnOk result (left.new.items ≡ left.old.items ++ one (step child.now names.now)) }
{
    match names {
        [] => push_path(alloc, left, &[]),
        [name, rest @ ..] => {
            if key(name).cmp(child).is_eq() {
                return push_path(alloc, left, rest);
            }
            Ok(())
        }
    }
}

/// Adds the path of these names.
fn push_path(alloc: Global, left: &mut Vec<TreePath>, names: &[Name]) -> Result<(), AllocError>
    ensures { OnOk result (left.new.items ≡ left.old.items ++ names.now ∷ []) }
{
    left.push(TreePath::new(alloc, names)?)?;
    Ok(())
}
