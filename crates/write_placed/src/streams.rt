//! The streams of a tree, and the sectors that they keep of those of their names.

use crate::bytes::{MINI, SECTOR};
use crate::older::{Older, chain_of};
use crate::parts::Part;
use cfb_file::limit::CUTOFF;
use cfb_names::name::Name;
use read_outlines::outline::{Part as Old, Place, is_short};
use std::alloc::{AllocError, Global};
use std::cmp::Ordering;
use tree_storage::storage::{Node, Storage};

/// The first part from one on whose name isn't less than a name. Parts stand in name order.
fn find(parts: &[(Name, Old)], from: usize, name: &Name) -> usize {
    for k in from..parts.len() {
        if parts[k].0.cmp(name) != Ordering::Less {
            return k;
        }
    }
    parts.len()
}

/// The chain of the stream that lay at a place.
fn chain_at(alloc: Global, older: &Older<'_>, place: Place) -> Result<Vec<u32>, AllocError> {
    if is_short(place) {
        return chain_of(alloc, &older.next_mini, place.first, place.size);
    }
    chain_of(alloc, &older.next, place.first, place.size)
}

/// Adds a stream, which keeps its sectors where it stays in its table and has as many.
fn push_stream<'a>(
    alloc: Global,
    older: &mut Older<'a>,
    bytes: &'a [u8],
    was: Option<Place>,
) -> Result<(), AllocError> {
    let short = bytes.len() < CUTOFF;
    let count = bytes.len().div_ceil(if short { MINI } else { SECTOR });
    let mut sectors = match was {
        Some(place) if is_short(place) == short => chain_at(alloc, older, place)?,
        _ => Vec::new(alloc),
    };
    if sectors.len() != count {
        sectors.clear();
    }
    older.parts.push(Part {
        bytes,
        short,
        count,
        sectors,
    })?;
    Ok(())
}

/// Adds the streams below a storage in the order of their entries, given the parts of the storage that had its name.
#[cycle(streams)]
pub(crate) fn push_streams<'a>(
    alloc: Global,
    older: &mut Older<'a>,
    storage: &'a Storage,
    was: &[(Name, Old)],
) -> Result<(), AllocError> {
    let mut at = 0;
    for (_, child) in storage.children.iter() {
        at = find(was, at, &child.0);
        let part = match was.get(at) {
            Some(part) if part.0.cmp(&child.0) == Ordering::Equal => Some(&part.1),
            _ => None,
        };
        push_node(alloc, older, &child.1, part)?;
    }
    Ok(())
}

/// Adds a child's.
#[cycle(streams)]
fn push_node<'a>(
    alloc: Global,
    older: &mut Older<'a>,
    node: &'a Node,
    was: Option<&Old>,
) -> Result<(), AllocError> {
    match (node, was) {
        (Node::Stream(bytes), Some(Old::Stream(place))) => {
            push_stream(alloc, older, bytes.as_slice(), Some(*place))
        }
        (Node::Stream(bytes), _) => push_stream(alloc, older, bytes.as_slice(), None),
        (Node::Storage(inner), Some(Old::Storage(outline))) => {
            push_streams(alloc, older, inner, &outline.parts)
        }
        (Node::Storage(inner), _) => push_streams(alloc, older, inner, &[]),
    }
}
