//! How many bytes the streams of an outline have.

ghost use Rattle.read_outlines.specs.View.{outline_view, part_view};
ghost use Rattle.tell_maps.specs.Sizes.{MOST, part_size};
ghost use Rattle.tell_maps.specs.Maps.{sizes};
ghost use Rattle.std.specs.Prelude.{◌+◌, ◌≡◌, min};

use read_outlines::outline::{Outline, Part};

/// A sum, or the greatest number where it is more.
fn add(total: u64, more: u64) -> u64
    ensures { result ≡ min MOST (total + more) }
{
    total.saturating_add(more)
}

/// The bytes of all streams together, or the greatest number where they are more.
#[cycle(sizing)]
pub(crate) fn total(outline: &Outline) -> u64
    ensures { result ≡ min MOST (sizes (outline_view outline.now)) }
{
    let mut total: u64 = 0;
    for part in &outline.parts {
        total = add(total, size_of(&part.1));
    }
    total
}

/// The bytes of the streams of a part.
#[cycle(sizing)]
fn size_of(part: &Part) -> u64
    ensures { result ≡ min MOST (part_size (part_view part.now)) }
{
    match part {
        Part::Stream(place) => place.size as u64,
        Part::Storage(inner) => total(inner),
    }
}
