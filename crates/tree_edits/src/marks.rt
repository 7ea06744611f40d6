//! Marks of storages.

ghost use Rattle.tree_edits.specs.Marks.{marking, with_mark};
ghost use Rattle.std.specs.Prelude.{◌≡◌};
ghost use Rattle.tree_storage.specs.Change.{Outcome, inner};
ghost use Rattle.tree_storage.specs.View.{seen, view};

use crate::change::Mark;
use cfb_names::name::{Name, key};
use tree_storage::fault::TreeFault;
use tree_storage::nodes::{Node, Storage};

/// Sets the mark of the storage at a path from this one down; of this one at the empty path.
///
/// Refused: `NotFound` where a name of the path isn't there; `WrongKind` where a stream stands at the path or on its
/// way. A refusal changes nothing.
#[cycle(marks)]
pub(crate) fn mark_at(storage: &mut Storage, path: &[Name], mark: Mark) -> Result<(), TreeFault>
    ensures { Outcome result (marking mark path.now (inner (view storage.old))) (inner (view storage.old))
        (inner (view storage.new)) }
{
    match path {
        [] => {
            set(storage, mark);
            Ok(())
        }
        [name, rest @ ..] => match storage.children.get_mut(&key(name)) {
            Some(child) => mark_below(&mut child.1, rest, mark),
            None => Err(TreeFault::NotFound),
        },
    }
}

/// Sets the mark of a storage.
fn set(storage: &mut Storage, mark: Mark)
    ensures { view storage.new ≡ with_mark mark (view storage.old) }
{
    match mark {
        Mark::Class(class) => storage.class = class,
        Mark::State(state) => storage.state = state,
    }
}

/// Sets the mark of what stands at a path below.
#[cycle(marks)]
fn mark_below(node: &mut Node, path: &[Name], mark: Mark) -> Result<(), TreeFault>
    ensures { Outcome result (marking mark path.now (seen node.old)) (seen node.old) (seen node.new) }
{
    match node {
        Node::Stream(_) => Err(TreeFault::WrongKind),
        Node::Storage(inner) => mark_at(inner, path, mark),
    }
}
