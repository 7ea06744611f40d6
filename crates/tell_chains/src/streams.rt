//! The streams of a directory, whatever is wrong with the links between its entries.

ghost use Rattle.cfb_entries.specs.Entries.{entry_at, first_of, kind, size_of};
ghost use Rattle.tell_chains.specs.Streams.{AreStreams, AreStreamsBelow, IsStream, IsStreamAt, lies_in_minis};
ghost use Rattle.tell_entries.specs.Searches.{AreAllMet};
ghost use Rattle.tell_entries.specs.Ways.{end_of};
ghost use Rattle.std.specs.List.{Contains};
ghost use Rattle.std.specs.Prelude.{◌≡◌, ◌<◌, ◌≤◌, ◌+◌, ◌*◌, IfNone, IfOk, IfSome, OnOk, length, slice_index};

use cfb_bytes::numbers::read_u32;
use std::alloc::{AllocError, Global};
use tell_entries::own_faults::entry_of;
use tell_entries::searching::{Met, way_to};

/// How many bytes a stream has at least that lies in sectors.
const CUTOFF: u32 = 4096;

/// The kind of a stream.
const STREAM: u8 = 2;

/// A stream that isn't empty.
#[derive(Clone, Copy)]
pub(crate) struct Stream {
    /// Its entry.
    pub(crate) id: usize,
    /// Its first sector, or its first mini sector.
    pub(crate) first: u32,
    /// How many bytes it has.
    pub(crate) size: u32,
}

/// Whether a stream of so many bytes lies in mini sectors.
pub(crate) fn lies_in_minis(size: u32) -> bool
    ensures { result ≡ lies_in_minis size }
{
    size < CUTOFF
}

/// The stream of an entry. None where it has none, or an empty one.
fn stream_of(directory: &[u8], id: usize) -> Option<Stream>
    requires { 128 * id + 128 ≤ length directory.now }
    ensures some { IfSome result (λ s. (s.id ≡ id) × (kind (entry_at directory.now id) ≡ 2)
        × (s.first ≡ first_of (entry_at directory.now id)) × (s.size ≡ size_of (entry_at directory.now id))
        × (0 < s.size)) }
    ensures none { IfNone result (kind (entry_at directory.now id) ≡ 2 → 0 < size_of (entry_at directory.now id) → ⊥) }
{
    let entry = entry_of(directory, id);
    if entry[66] != STREAM {
        return None;
    }
    let size = read_u32(entry, 120);
    if size == 0 {
        return None;
    }
    let first = read_u32(entry, 116);
    Some(Stream { id, first, size })
}

/// Adds the stream of an entry, if that was met and has one that isn't empty.
fn push_stream(
    directory: &[u8],
    met: &Met,
    streams: &mut Vec<Stream>,
    id: usize,
) -> Result<(), AllocError>
    requires met { AreAllMet directory.now met.now.ids.items met.now.parents.items met.now.seen.items }
    requires inside { id < length met.now.seen.items }
    requires streams { AreStreamsBelow directory.now met.now.ids.items met.now.seen.items id streams.old.items }
    ensures { OnOk result (AreStreamsBelow directory.now met.now.ids.items met.now.seen.items (id + 1)
        streams.new.items) }
{
    if id == 0 {
        return Ok(());
    }
    if !met.seen[id] {
        return Ok(());
    }
    match stream_of(directory, id) {
        Some(stream) => {
            streams.push(stream)?;
            Ok(())
        }
        None => Ok(()),
    }
}

/// The streams of a directory that aren't empty, in the order of their entries.
pub(crate) fn streams_of(
    alloc: Global,
    directory: &[u8],
    met: &Met,
) -> Result<Vec<Stream>, AllocError>
    requires { AreAllMet directory.now met.now.ids.items met.now.parents.items met.now.seen.items }
    ensures { IfOk result (λ v. AreStreams directory.now met.now.ids.items v.items) }
{
    let mut streams = Vec::new(alloc);
    for id in 0..met.seen.len() {
        push_stream(directory, met, &mut streams, id)?;
    }
    Ok(streams)
}

/// The place of an entry among those that were met.
fn place_among(ids: &[u32], id: usize) -> usize
    requires { Contains ids.now id }
    ensures inside { result < length ids.now }
    ensures there { slice_index ids.now result ≡ id }
{
    for k in 0..ids.len() {
        if ids[k] as usize == id {
            return k;
        }
    }
    0
}

/// The way to the entry of a stream.
pub(crate) fn way_of(
    alloc: Global,
    directory: &[u8],
    met: &Met,
    stream: &Stream,
) -> Result<Vec<u32>, AllocError>
    requires met { AreAllMet directory.now met.now.ids.items met.now.parents.items met.now.seen.items }
    requires stream { IsStream directory.now met.now.ids.items stream.now }
    ensures { IfOk result (λ w. IsStreamAt directory.now w.items × (end_of w.items ≡ stream.now.id)) }
{
    let place = place_among(&met.ids, stream.id);
    let way = way_to(alloc, directory, &met.ids, &met.parents, place)?;
    Ok(way)
}
