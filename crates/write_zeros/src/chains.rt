//! Chains, and what lies behind their ends.

ghost use Rattle.cfb_bytes.specs.Bytes.{block, u32_at};
ghost use Rattle.cfb_header.specs.Bytes.{joined, sector};
ghost use Rattle.cfb_chains.specs.Chain.{END_OF_CHAIN as END};
ghost use Rattle.write_zeros.specs.Taken.{IsLinked};
ghost use Rattle.write_zeros.specs.Zeroed.{AreZeros};
ghost use Rattle.std.specs.Prelude.{◌*◌, ◌+◌, ◌++◌, ◌/◌, ◌<◌, ◌≡◌, ◌≤◌, IfOk, IsTrue, List, OnOk, drop, length};
ghost use Rattle.std.specs.Prelude.{slice_index, ℕ};

use crate::zeros::is_zero_behind;
use cfb_bytes::numbers::read_u32;
use cfb_header::header::END_OF_CHAIN;
use read_chains::table::chain_from;
use std::alloc::{AllocError, Global};

/// The size of a sector.
const SECTOR: usize = 512;

/// Adds the bytes of a sector of a file, zero bytes standing for those past the end.
fn push_sector(out: &mut Vec<u8>, file: &[u8], at: usize) -> Result<(), AllocError>
    ensures { OnOk result (out.new.items ≡ out.old.items ++ block 512 file.now at) }
{
    let rest = &file[at.min(file.len())..];
    let end = out.len() + SECTOR;
    out.extend_from_slice(&rest[..SECTOR.min(rest.len())])?;
    out.resize(end, 0)?;
    Ok(())
}

/// The bytes of sectors of a file, one after another.
pub(crate) fn joined_of(alloc: Global, file: &[u8], sectors: &[u32]) -> Result<Vec<u8>, AllocError>
    ensures { IfOk result (λ v. v.items ≡ joined (sector file.now) sectors.now) }
{
    let mut out = Vec::new(alloc);
    for n in sectors {
        push_sector(&mut out, file, SECTOR + SECTOR * *n as usize)?;
    }
    Ok(out)
}

/// The numbers in bytes.
pub(crate) fn numbers_in(alloc: Global, bytes: &[u8]) -> Result<Vec<u32>, AllocError>
    ensures count { IfOk result (λ v. length v.items ≡ length bytes.now / 4) }
    ensures each { IfOk result (λ v. (k : ℕ) → k < length v.items → slice_index v.items k ≡ u32_at bytes.now (4 * k)) }
{
    let mut numbers = Vec::new(alloc);
    for k in 0..bytes.len() / 4 {
        numbers.push(read_u32(bytes, 4 * k))?;
    }
    Ok(numbers)
}

/// The chain that begins with a sector, or none where it is to hold nothing.
pub(crate) fn chain_of(
    alloc: Global,
    table: &[u32],
    first: u32,
    size: u32,
) -> Result<Vec<u32>, AllocError>
    ensures { IfOk result (λ v. (ns : List ℕ) → length table.now ≤ END → IsLinked table.now first size ns
        → v.items ≡ ns) }
{
    if size == 0 {
        return Ok(Vec::new(alloc));
    }
    chain_from(alloc, table, first)
}

/// Whether what lies behind the first `size` bytes in a chain's sectors is zero. The first sector of all stands at
/// `start`.
pub(crate) fn ends_in_zeros(
    bytes: &[u8],
    start: usize,
    width: usize,
    table: &[u32],
    first: u32,
    size: u32,
) -> bool
    requires some { 0 < width }
    requires wide { width ≤ 512 }
    requires near { start ≤ 512 }
    ensures { IsTrue result → (ns : List ℕ) → IsLinked table.now first size ns
        → AreZeros (drop size (joined (λ n. block width bytes.now (start + width * n)) ns)) }
{
    if size == 0 {
        return true;
    }
    if table.len() > END_OF_CHAIN as usize {
        return false;
    }
    let mut at = first;
    let mut left = size as usize;
    let mut steps = 0;
    while (at as usize) < table.len() {
        // A chain meets no sector twice.
        if steps >= table.len() {
            return false;
        }
        if !is_zero_behind(bytes, width, start + width * at as usize, left) {
            return false;
        }
        left = left.saturating_sub(width);
        at = table[at as usize];
        steps += 1;
    }
    true
}
