//! Whether a storage holds what an outline of a file shows.

ghost use Rattle.cfb_file.specs.Outline.{outline_of, part_of};
ghost use Rattle.read_outlines.specs.View.{contents, outline_view, part_view, shown, shown_part};
ghost use Rattle.std.specs.Prelude.{◌≡◌, IfOk, length, true};
ghost use Rattle.tree_storage.specs.View.{seen, view};

use cfb_names::name::Name;
use read_chains::fat::Fat;
use read_outlines::outline::{Outline, Part, Place, is_short};
use std::alloc::{AllocError, Global};
use tree_storage::storage::{Node, Storage};

/// Whether the stream that lies at a place has these bytes.
fn is_held(
    alloc: Global,
    fat: &Fat<'_>,
    mini: &Fat<'_>,
    place: Place,
    bytes: &[u8],
) -> Result<bool, AllocError>
    ensures same { IfOk result (λ same. same ≡ true → bytes.now ≡ contents fat.now mini.now place) }
    ensures missed { length (contents fat.now mini.now place) ≡ place.size
        → IfOk result (λ same. bytes.now ≡ contents fat.now mini.now place → same ≡ true) }
{
    if place.size as usize != bytes.len() {
        return Ok(false);
    }
    if is_short(place) {
        mini.holds(alloc, place.first, bytes)
    } else {
        fat.holds(alloc, place.first, bytes)
    }
}

/// Whether a storage holds what an outline shows, given the tables of sectors and of mini sectors. Its streams are
/// compared where they stand in the file; one that isn't seen to be the same so is read, one at a time. Where each
/// stream of the outline is as long as it says, the answer is no for another storage alone.
///
/// Refused for want of memory alone.
#[cycle(comparing)]
pub fn is_shown(
    alloc: Global,
    fat: &Fat<'_>,
    mini: &Fat<'_>,
    outline: &Outline,
    storage: &Storage,
) -> Result<bool, AllocError>
    ensures same { IfOk result (λ same. same ≡ true → view storage.now ≡ shown (contents fat.now mini.now)
        outline.now) }
    ensures missed { outline_of (shown (contents fat.now mini.now) outline.now) ≡ outline_view outline.now
        → IfOk result (λ same. view storage.now ≡ shown (contents fat.now mini.now) outline.now → same ≡ true) }
{
    if storage.class != outline.class || storage.state != outline.state {
        return Ok(false);
    }
    let mut children = storage.children.iter();
    for part in &outline.parts {
        let Some((key, child)) = children.next() else {
            return Ok(false);
        };
        if *key != cfb_names::name::key(&part.0) {
            return Ok(false);
        }
        if child.0.as_bytes() != part.0.as_bytes() {
            return Ok(false);
        }
        if !is_shown_part(alloc, fat, mini, &part.1, &child.1)? {
            return Ok(false);
        }
    }
    Ok(children.next().is_none())
}

/// Whether a node holds what a part of an outline shows.
#[cycle(comparing)]
fn is_shown_part(
    alloc: Global,
    fat: &Fat<'_>,
    mini: &Fat<'_>,
    part: &Part,
    node: &Node,
) -> Result<bool, AllocError>
    ensures same { IfOk result (λ same. same ≡ true → seen node.now ≡ shown_part (contents fat.now mini.now) part.now) }
    ensures missed { part_of (shown_part (contents fat.now mini.now) part.now) ≡ part_view part.now
        → IfOk result (λ same. seen node.now ≡ shown_part (contents fat.now mini.now) part.now → same ≡ true) }
{
    match (part, node) {
        (Part::Stream(place), Node::Stream(bytes)) => {
            is_held(alloc, fat, mini, *place, bytes.as_slice())
        }
        (Part::Storage(inner), Node::Storage(storage)) => {
            is_shown(alloc, fat, mini, inner, storage)
        }
        _ => Ok(false),
    }
}
