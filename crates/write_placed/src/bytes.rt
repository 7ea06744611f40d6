//! Pieces of bytes, and numbers in them. What is past the end reads as zeros, and isn't written.

ghost use Rattle.cfb_bytes.specs.Bytes.{u32_at};
ghost use Rattle.std.specs.Prelude.{◌*◌, ◌/◌, ◌<◌, ◌≡◌, length};

use cfb_bytes::numbers::read_u32;
use std::alloc::{AllocError, Global};

/// The size of a sector.
pub(crate) const SECTOR: usize = 512;

/// The size of a mini sector.
pub(crate) const MINI: usize = 64;

/// One of the pieces of equal width in bytes, or what there is of it.
pub(crate) fn piece(bytes: &[u8], width: usize, number: usize) -> &[u8] {
    let from = width.saturating_mul(number).min(bytes.len());
    let to = from.saturating_add(width).min(bytes.len());
    &bytes[from..to]
}

/// Puts bytes into one of the pieces of equal width, and zeros behind them.
pub(crate) fn put(bytes: &mut [u8], width: usize, number: usize, new: &[u8]) {
    let from = width.saturating_mul(number);
    if from <= bytes.len() && new.len() <= width && width <= bytes.len() - from {
        bytes[from..from + new.len()].copy_from_slice(new);
        bytes[from + new.len()..from + width].fill(0);
    }
}

/// One of the numbers in bytes, of which each has four.
pub(crate) fn number_at(bytes: &[u8], number: usize) -> u32
    ensures { number < length bytes.now / 4 → result ≡ u32_at bytes.now (4 * number) }
{
    if number >= bytes.len() / 4 {
        return 0;
    }
    read_u32(bytes, 4 * number)
}

/// Sets one of the numbers in bytes.
pub(crate) fn set_number(bytes: &mut [u8], number: usize, value: u32) {
    put(bytes, 4, number, &value.to_le_bytes());
}

/// The bytes of sectors of a file, one after another.
pub(crate) fn joined(alloc: Global, file: &[u8], sectors: &[u32]) -> Result<Vec<u8>, AllocError> {
    let mut out = Vec::new(alloc);
    for sector in sectors {
        let end = out.len() + SECTOR;
        out.extend_from_slice(piece(file, SECTOR, *sector as usize + 1))?;
        out.resize(end, 0)?;
    }
    Ok(out)
}

/// The numbers in sectors of a file.
pub(crate) fn numbers_in(
    alloc: Global,
    file: &[u8],
    sectors: &[u32],
) -> Result<Vec<u32>, AllocError> {
    let bytes = joined(alloc, file, sectors)?;
    let mut numbers = Vec::with_capacity(alloc, bytes.len() / 4)?;
    for k in 0..bytes.len() / 4 {
        numbers.push(number_at(&bytes, k))?;
    }
    Ok(numbers)
}
