//! What stands at paths of an outline.

ghost use Rattle.cfb_names.specs.Names.{key};
ghost use Rattle.read_outlines.specs.View.{shown, shown_part, shown_parts};
ghost use Rattle.read_outlines.specs.declared.outline.Place as place;
ghost use Rattle.folder_commands.specs.Chosen.{AllStand, IsMissing, standing};
ghost use Rattle.std.specs.Prelude.{◌≡◌, IfErr, IfNone, IfSome, List, None, OnOk, Some, ℕ};
ghost use Rattle.tree_storage.specs.Change.{find, inner, look};

use crate::chosen::TreePath;
use cfb_names::name::{Name, key};
use read_outlines::outline::{Outline, Part};
use tree_storage::fault::TreeFault;

/// The part of a name.
fn part_of<'o>(outline: &'o Outline, name: &Name) -> Option<&'o Part>
    ensures found { IfSome result (λ part. (content : place.Place → List ℕ)
        → (spelled : List ℕ) × (find (key name.now) (shown_parts content outline.now.parts.items)
        ≡ Some (spelled, shown_part content part.now))) }
    ensures none { IfNone result ((content : place.Place → List ℕ)
        → find (key name.now) (shown_parts content outline.now.parts.items) ≡ None) }
{
    let wanted = key(name);
    for part in &outline.parts {
        if wanted.cmp(&key(&part.0)).is_eq() {
            return Some(&part.1);
        }
    }
    None
}

/// Looks for what stands at a path of an outline.
///
/// Refused: `NotFound` where a name of the path isn't there, `WrongKind` where a stream stands on its way.
#[cycle(finding)]
fn find_at(outline: &Outline, path: &[Name]) -> Result<(), TreeFault>
    ensures { (content : place.Place → List ℕ) → result ≡ standing (look path.now (inner (shown content outline.now))) }
{
    match path {
        [] => Ok(()),
        [name, rest @ ..] => match part_of(outline, name) {
            Some(part) => find_in(part, rest),
            None => Err(TreeFault::NotFound),
        },
    }
}

/// Looks for what stands at a path below a part.
#[cycle(finding)]
fn find_in(part: &Part, path: &[Name]) -> Result<(), TreeFault>
    ensures { (content : place.Place → List ℕ) → result ≡ standing (look path.now (shown_part content part.now)) }
{
    match part {
        Part::Stream(_) => {
            if !path.is_empty() {
                return Err(TreeFault::WrongKind);
            }
            Ok(())
        }
        Part::Storage(inner) => find_at(inner, path),
    }
}

/// Looks for what stands at paths of an outline.
///
/// Refused: the first path at which nothing stands, by its number and as `find_at` refuses it.
pub(crate) fn find_all(outline: &Outline, paths: &[TreePath]) -> Result<(), (usize, TreeFault)>
    ensures found { OnOk result ((content : place.Place → List ℕ) → AllStand paths.now (shown content outline.now)) }
    ensures missing { IfErr result (λ refused. (content : place.Place → List ℕ)
        → IsMissing paths.now (shown content outline.now) refused.0 refused.1) }
{
    for (number, path) in paths.iter().enumerate() {
        match find_at(outline, path.names()) {
            Ok(()) => {}
            Err(fault) => return Err((number, fault)),
        }
    }
    Ok(())
}
