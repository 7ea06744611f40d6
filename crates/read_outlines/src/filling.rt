//! The tree that an outline of a file shows, with the bytes of its streams.

ghost use Rattle.cfb_names.specs.Names.{key, key_cmp};
ghost use Rattle.read_outlines.specs.View.{contents, shown, shown_part};
ghost use Rattle.std.specs.List.Sorted.{IsStrictlySortedBy};
ghost use Rattle.std.specs.Map.{keys_of};
ghost use Rattle.std.specs.Prelude.{◌++◌, ◌≡◌, ◌∷◌, [], IfOk, OnOk, ℕ};
ghost use Rattle.tree_storage.specs.View.{seen, view};
ghost use Rattle.cfb_entries.specs.Whole.{IsTree, IsWhole};

use crate::outline::{Outline, Part, Place, is_short};
use cfb_names::key::Key;
use cfb_names::name::{Name, key};
use read_chains::fat::Fat;
use std::alloc::{AllocError, Global};
use std::collections::BTreeMap;
use tree_storage::storage::{Node, Storage};
use tree_values::bytes::Bytes;

/// The bytes of the stream that lies at a place, given the tables of sectors and of mini sectors (MS-CFB 2.6.3).
pub fn bytes_at(
    alloc: Global,
    fat: &Fat<'_>,
    mini: &Fat<'_>,
    place: Place,
) -> Result<Vec<u8>, AllocError>
    ensures { IfOk result (λ v. v.items ≡ contents fat.now mini.now place) }
{
    if is_short(place) {
        mini.held(alloc, place.first, place.size)
    } else {
        fat.held(alloc, place.first, place.size)
    }
}

/// Puts a child behind those so far, under the key of its name.
fn push_child(
    pairs: &mut Vec<(Key, (Name, Node))>,
    name: Name,
    node: Node,
) -> Result<(), AllocError>
    ensures { OnOk result (pairs.new.items ≡ pairs.old.items ++ (key name, (name, node)) ∷ []) }
{
    Ok(pairs.push((key(&name), (name, node)))?)
}

/// The map of children whose keys ascend, made at once: to insert each one is a search of its own.
fn map_of(
    alloc: Global,
    pairs: Vec<(Key, (Name, Node))>,
) -> Result<BTreeMap<Key, (Name, Node)>, AllocError>
    ensures { IfOk result (λ map. IsStrictlySortedBy key_cmp (keys_of pairs.items) → map.entries ≡ pairs.items) }
{
    pairs.into_iter().collect(alloc)
}

/// The storage that an outline shows.
#[cycle(filling)]
pub fn storage_at(
    alloc: Global,
    fat: &Fat<'_>,
    mini: &Fat<'_>,
    outline: &Outline,
) -> Result<Storage, AllocError>
    ensures { IfOk result (λ s. (depth : ℕ) → IsTree depth (shown (contents fat.now mini.now) outline.now)
        → view s ≡ shown (contents fat.now mini.now) outline.now) }
{
    let mut pairs = Vec::with_capacity(alloc, outline.parts.len())?;
    for part in &outline.parts {
        let node = node_at(alloc, fat, mini, &part.1)?;
        push_child(&mut pairs, part.0.copy(), node)?;
    }
    Ok(Storage {
        class: outline.class,
        state: outline.state,
        children: map_of(alloc, pairs)?,
    })
}

/// What a part of an outline shows.
#[cycle(filling)]
fn node_at(alloc: Global, fat: &Fat<'_>, mini: &Fat<'_>, part: &Part) -> Result<Node, AllocError>
    ensures { IfOk result (λ node. (depth : ℕ) → IsWhole depth (shown_part (contents fat.now mini.now) part.now)
        → seen node ≡ shown_part (contents fat.now mini.now) part.now) }
{
    match part {
        Part::Stream(place) => {
            let bytes = bytes_at(alloc, fat, mini, *place)?;
            Ok(Node::Stream(Bytes::from_vec(alloc, bytes)?))
        }
        Part::Storage(outline) => {
            let inner = storage_at(alloc, fat, mini, outline)?;
            Ok(Node::Storage(inner))
        }
    }
}
