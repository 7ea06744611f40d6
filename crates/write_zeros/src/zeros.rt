//! Bytes that are zero.

ghost use Rattle.cfb_bytes.specs.Bytes.{block};
ghost use Rattle.write_zeros.specs.Zeroed.{AreZeros};
ghost use Rattle.std.specs.Prelude.{◌*◌, ◌+◌, ◌<◌, ◌≡◌, ◌≤◌, IsTrue, drop, false, slice_index_or, ℕ};

use crate::marks::is_marked;
use cfb_file::limit::MOST_BYTES;

/// The most bytes of a file.
const MOST: usize = MOST_BYTES as usize;

/// Whether all bytes are zero.
fn are_zeros(bytes: &[u8]) -> bool
    ensures { IsTrue result → AreZeros bytes.now }
{
    for byte in bytes {
        if *byte != 0 {
            return false;
        }
    }
    true
}

/// Whether a block's bytes behind the first ones are zero, zero bytes standing for those past the end.
pub(crate) fn is_zero_behind(bytes: &[u8], width: usize, at: usize, from: usize) -> bool
    ensures { IsTrue result → AreZeros (drop from (block width bytes.now at)) }
{
    let rest = &bytes[at.min(bytes.len())..];
    let piece = &rest[..width.min(rest.len())];
    are_zeros(&piece[from.min(piece.len())..])
}

/// Whether a block is marked, or zero.
fn is_marked_or_zero(bytes: &[u8], width: usize, at: usize, marks: &[bool], n: usize) -> bool
    ensures { IsTrue result → slice_index_or marks.now n false ≡ false → AreZeros (block width bytes.now at) }
{
    if is_marked(marks, n) {
        return true;
    }
    is_zero_behind(bytes, width, at, 0)
}

/// Whether the blocks that aren't marked are zero, the first of which stands at `start`, in no more bytes than a file
/// has.
pub(crate) fn are_unmarked_zero(bytes: &[u8], start: usize, width: usize, marks: &[bool]) -> bool
    requires some { 0 < width }
    requires wide { width ≤ 512 }
    ensures { IsTrue result → (n : ℕ) → slice_index_or marks.now n false ≡ false
        → AreZeros (block width bytes.now (start + width * n)) }
{
    if bytes.len() > MOST {
        return false;
    }
    let mut n = 0;
    let mut at = start;
    while at < bytes.len() {
        if !is_marked_or_zero(bytes, width, at, marks, n) {
            return false;
        }
        at += width;
        n += 1;
    }
    true
}
