//! The sectors of the streams of an outline.

ghost use Rattle.tell_maps.specs.Streams.{chained, outline_sectors, part_sectors, place_sectors};
ghost use Rattle.std.specs.Prelude.{◌++◌, ◌≡◌, IfOk, OnOk};

use read_chains::links::Links;
use read_outlines::outline::{Outline, Part, Place, is_short};
use read_streams::chains::follow;
use std::alloc::{AllocError, Global};

/// The sectors of the chain that begins with one, or none where it is to hold nothing.
pub(crate) fn chain_of(
    alloc: Global,
    table: &Links<'_>,
    start: u32,
    bytes: usize,
) -> Result<Vec<u32>, AllocError>
    ensures { IfOk result (λ v. v.items ≡ chained table.now start bytes) }
{
    if bytes == 0 {
        return Ok(Vec::new(alloc));
    }
    follow(alloc, table, start, table.len())
}

/// The sectors of the stream at a place: none of its own where it lies in mini sectors.
fn sectors_at(alloc: Global, table: &Links<'_>, place: Place) -> Result<Vec<u32>, AllocError>
    ensures { IfOk result (λ v. v.items ≡ place_sectors table.now place.first place.size) }
{
    if is_short(place) {
        return Ok(Vec::new(alloc));
    }
    chain_of(alloc, table, place.first, place.size as usize)
}

/// Puts the sectors of the stream at a place behind others.
fn push_stream(
    alloc: Global,
    table: &Links<'_>,
    place: Place,
    sectors: &mut Vec<u32>,
) -> Result<(), AllocError>
    ensures { OnOk result (sectors.new.items ≡ sectors.old.items
        ++ place_sectors table.now place.first place.size) }
{
    let found = sectors_at(alloc, table, place)?;
    sectors.extend_from_slice(&found)?;
    Ok(())
}

/// Puts the sectors of the streams below a storage behind others.
#[cycle(gathering)]
fn push_below(
    alloc: Global,
    table: &Links<'_>,
    outline: &Outline,
    sectors: &mut Vec<u32>,
) -> Result<(), AllocError>
    ensures { OnOk result (sectors.new.items ≡ sectors.old.items ++ outline_sectors table.now outline.now) }
{
    for part in &outline.parts {
        push_part(alloc, table, &part.1, sectors)?;
    }
    Ok(())
}

/// Puts the sectors of a part's streams behind others.
#[cycle(gathering)]
fn push_part(
    alloc: Global,
    table: &Links<'_>,
    part: &Part,
    sectors: &mut Vec<u32>,
) -> Result<(), AllocError>
    ensures { OnOk result (sectors.new.items ≡ sectors.old.items ++ part_sectors table.now part.now) }
{
    match part {
        Part::Stream(place) => push_stream(alloc, table, *place, sectors),
        Part::Storage(inner) => push_below(alloc, table, inner, sectors),
    }
}

/// The sectors of all streams of an outline, one stream behind the other.
pub(crate) fn all_sectors(
    alloc: Global,
    table: &Links<'_>,
    outline: &Outline,
) -> Result<Vec<u32>, AllocError>
    ensures { IfOk result (λ v. v.items ≡ outline_sectors table.now outline.now) }
{
    let mut sectors = Vec::new(alloc);
    push_below(alloc, table, outline, &mut sectors)?;
    Ok(sectors)
}
