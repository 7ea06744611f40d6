//! Where the stream at a path lies.

ghost use Rattle.cfb_names.specs.Names.{key};
ghost use Rattle.read_outlines.specs.Streams.{stream_at, stream_bytes};
ghost use Rattle.read_outlines.specs.View.{shown, shown_part, shown_parts};
ghost use Rattle.read_outlines.specs.declared.outline.Place as place;
ghost use Rattle.std.specs.Prelude.{◌≡◌, IfNone, IfSome, List, None, Some, ℕ};
ghost use Rattle.tree_storage.specs.Change.{find, look, map_ok, on_ok};

use crate::outline::{Outline, Part, Place};
use cfb_names::name::{Name, key};
use tree_storage::fault::TreeFault;

/// The part of a name.
fn part_of<'o>(outline: &'o Outline, name: &Name) -> Option<&'o Part>
    ensures found { IfSome result (λ part. (content : place.Place → List ℕ) → (spelled : List ℕ)
        × (find (key name.now) (shown_parts content outline.now.parts.items)
        ≡ Some (spelled, shown_part content part.now))) }
    ensures none { IfNone result ((content : place.Place → List ℕ)
        → find (key name.now) (shown_parts content outline.now.parts.items) ≡ None) }
{
    let wanted = key(name);
    for part in &outline.parts {
        if wanted.cmp(&key(&part.0)).is_eq() {
            return Some(&part.1);
        }
    }
    None
}

/// Where the stream at a path of an outline lies.
///
/// Refused: `NotFound` where a name of the path isn't there; `WrongKind` where a stream stands on its way, or a storage
/// at its end. The first name of the path that meets one of these decides.
#[cycle(finding)]
pub fn place_at(outline: &Outline, path: &[Name]) -> Result<Place, TreeFault>
    ensures { (content : place.Place → List ℕ) → map_ok content result
        ≡ stream_at path.now (shown content outline.now) }
{
    match path {
        [] => Err(TreeFault::WrongKind),
        [name, rest @ ..] => match part_of(outline, name) {
            Some(part) => place_in(part, rest),
            None => Err(TreeFault::NotFound),
        },
    }
}

/// Where the stream at a path below a part lies.
#[cycle(finding)]
fn place_in(part: &Part, path: &[Name]) -> Result<Place, TreeFault>
    ensures { (content : place.Place → List ℕ) → map_ok content result
        ≡ on_ok stream_bytes (look path.now (shown_part content part.now)) }
{
    match part {
        Part::Stream(place) => {
            if !path.is_empty() {
                return Err(TreeFault::WrongKind);
            }
            Ok(*place)
        }
        Part::Storage(inner) => place_at(inner, path),
    }
}
