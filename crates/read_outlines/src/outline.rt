//! What a compound file holds, without the bytes of its streams.

ghost use Rattle.std.specs.Prelude.{◌≡◌, nat_lt};
ghost use Rattle.cfb_file.specs.Limits.{CUTOFF};

use cfb_file::limit::CUTOFF;
use cfb_names::name::Name;
use tree_values::class_id::ClassId;

/// Where a stream lies: the sector or mini sector that it begins with, and how many bytes it has.
#[derive(Clone, Copy)]
pub struct Place {
    pub first: u32,
    pub size: u32,
}

/// Whether a stream lies in mini sectors.
pub fn is_short(place: Place) -> bool
    ensures { result ≡ nat_lt place.size CUTOFF }
{
    (place.size as usize) < CUTOFF
}

/// A storage: its class id, its state bits, and its children in name order.
#[derive(Drop)]
#[cycle(outlines)]
pub struct Outline {
    pub class: ClassId,
    pub state: u32,
    pub parts: Vec<(Name, Part)>,
}

/// What a child of a storage is.
#[derive(Drop)]
#[cycle(outlines)]
pub enum Part {
    /// A stream, which lies here.
    Stream(Place),
    /// A storage.
    Storage(Outline),
}
