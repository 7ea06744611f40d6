//! The streams of a file: what they take, and what lies behind their ends.

ghost use Rattle.cfb_entries.specs.Entries.{entry_at};
ghost use Rattle.write_zeros.specs.Parts.{AreTaken, EndsInZeros};
ghost use Rattle.write_zeros.specs.Taken.{AreWithin};
ghost use Rattle.std.specs.List.{All, Contains};
ghost use Rattle.std.specs.Prelude.{◌*◌, ◌<◌, ◌^◌, IsTrue, List, length, ℕ};

use crate::chains::ends_in_zeros;
use crate::entries::{STREAM, entry_of};
use crate::marks::mark_chain;
use crate::parts::Parts;
use cfb_bytes::numbers::read_u32;
use cfb_file::limit::CUTOFF;

/// Marks the sectors, or mini sectors, that an entry takes if it is a stream's.
fn mark_stream(sectors: &mut [bool], minis: &mut [bool], parts: &Parts, id: u32)
    ensures sectors { (ids longs shorts : List ℕ) → AreTaken parts.now ids longs shorts → Contains ids id
        → AreWithin sectors.old longs → AreWithin sectors.new longs }
    ensures minis { (ids longs shorts : List ℕ) → AreTaken parts.now ids longs shorts → Contains ids id
        → AreWithin minis.old shorts → AreWithin minis.new shorts }
{
    let Some(entry) = entry_of(&parts.chains.entries, id as usize) else {
        return;
    };
    if entry[66] != STREAM {
        return;
    }
    let first = read_u32(entry, 116);
    let size = read_u32(entry, 120);
    if (size as usize) < CUTOFF {
        mark_chain(minis, &parts.next_mini, first, size);
        return;
    }
    mark_chain(sectors, &parts.next, first, size);
}

/// Marks those that the streams among entries take.
pub(crate) fn mark_streams(sectors: &mut [bool], minis: &mut [bool], parts: &Parts, met: &[u32])
    ensures sectors { (ids longs shorts : List ℕ) → AreTaken parts.now ids longs shorts → All (Contains ids) met.now
        → AreWithin sectors.old longs → AreWithin sectors.new longs }
    ensures minis { (ids longs shorts : List ℕ) → AreTaken parts.now ids longs shorts → All (Contains ids) met.now
        → AreWithin minis.old shorts → AreWithin minis.new shorts }
{
    for id in met {
        mark_stream(sectors, minis, parts, *id);
    }
}

/// Whether an entry is there, and isn't a stream's or what lies behind the stream's end is zero.
fn ends_so(file: &[u8], parts: &Parts, id: usize) -> bool
    requires { id < 2 ^ 57 }
    ensures { IsTrue result → EndsInZeros file.now parts.now (entry_at parts.now.chains.entries.items id) }
{
    let Some(entry) = entry_of(&parts.chains.entries, id) else {
        return false;
    };
    if entry[66] != STREAM {
        return true;
    }
    let first = read_u32(entry, 116);
    let size = read_u32(entry, 120);
    if (size as usize) < CUTOFF {
        return ends_in_zeros(&parts.shorts, 0, 64, &parts.next_mini, first, size);
    }
    ends_in_zeros(file, 512, 512, &parts.next, first, size)
}

/// Whether what lies behind the end of each stream is zero.
pub(crate) fn all_end_in_zeros(file: &[u8], parts: &Parts) -> bool
    ensures { IsTrue result → (id : ℕ) → 128 * id < length parts.now.chains.entries.items
        → EndsInZeros file.now parts.now (entry_at parts.now.chains.entries.items id) }
{
    for id in 0..parts.chains.entries.len().div_ceil(128) {
        if !ends_so(file, parts, id) {
            return false;
        }
    }
    true
}
