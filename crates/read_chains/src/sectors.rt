//! The bytes of sectors, and the numbers in them.

ghost use Rattle.cfb_header.specs.Bytes.{block, joined, u32_at};
ghost use Rattle.std.specs.Prelude.{◌*◌, ◌+◌, ◌++◌, ◌<◌, ◌≡◌, ◌≤◌, IfOk, IfSome, OnOk, length, slice_index, true, ◌^◌};
ghost use Rattle.std.specs.Prelude.{ℕ};

use cfb_bytes::numbers::read_u32;
use std::alloc::{AllocError, Global};

/// The size of a sector.
pub(crate) const SECTOR: usize = 512;

/// The size of a mini sector.
pub(crate) const MINI_SECTOR: usize = 64;

/// Adds the bytes of a sector, zero bytes standing for those past the end.
pub(crate) fn push_block(
    out: &mut Vec<u8>,
    width: usize,
    bytes: &[u8],
    at: usize,
) -> Result<(), AllocError>
    requires { width ≤ 512 }
    ensures { OnOk result (out.new.items ≡ out.old.items ++ block width bytes.now at) }
{
    let rest = &bytes[at.min(bytes.len())..];
    let end = out.len() + width;
    out.extend_from_slice(&rest[..width.min(rest.len())])?;
    out.resize(end, 0)?;
    Ok(())
}

/// The bytes of sectors, one after another, the first of which stands at `start`.
pub(crate) fn join_blocks(
    alloc: Global,
    width: usize,
    bytes: &[u8],
    start: usize,
    sectors: &[u32],
) -> Result<Vec<u8>, AllocError>
    requires wide { width ≤ 512 }
    requires near { start ≤ 512 }
    ensures { IfOk result (λ v. v.items ≡ joined (λ n. block width bytes.now (start + width * n)) sectors.now) }
{
    let mut out = Vec::with_capacity(alloc, width.saturating_mul(sectors.len()))?;
    if let Some(run) = run_of(width, bytes, start, sectors) {
        out.extend_from_slice(run)?;
        return Ok(out);
    }
    for n in sectors {
        push_block(&mut out, width, bytes, start + width * *n as usize)?;
    }
    Ok(out)
}

/// Whether each number is one more than that before it, the first one being `first`.
pub(crate) fn are_consecutive(first: u32, sectors: &[u32]) -> bool
    ensures { result ≡ true → (k : ℕ) → k < length sectors.now → slice_index sectors.now k ≡ first + k }
{
    for k in 0..sectors.len() {
        if sectors[k] as usize != first as usize + k {
            return false;
        }
    }
    true
}

/// Whether bytes are the same.
pub(crate) fn are_equal(a: &[u8], b: &[u8]) -> bool
    ensures { result ≡ true → a.now ≡ b.now }
{
    a == b
}

/// How many numbers of a list from a place on are each one more than that before it.
pub(crate) fn row_length(sectors: &[u32], at: usize) -> usize
    requires { at < length sectors.now }
    ensures some { 0 < result }
    ensures inside { at + result ≤ length sectors.now }
{
    let mut count = 1;
    while at + count < sectors.len()
        && sectors[at + count] as usize == sectors[at] as usize + count
    {
        count += 1;
    }
    count
}

/// The bytes of sectors, the first of which stands at `start`, where they are whole and stand one after another.
pub(crate) fn run_of<'a>(
    width: usize,
    bytes: &'a [u8],
    start: usize,
    sectors: &[u32],
) -> Option<&'a [u8]>
    requires wide { width ≤ 512 }
    requires near { start ≤ 512 }
    ensures { IfSome result (λ run. run.now ≡ joined (λ n. block width bytes.now (start + width * n)) sectors.now) }
{
    let first = *sectors.first()?;
    if !are_consecutive(first, sectors) {
        return None;
    }
    let at = start + width * first as usize;
    let len = width.checked_mul(sectors.len())?;
    let rest = bytes.get(at..)?;
    let run = rest.get(..len)?;
    Some(run)
}

/// Number k of four bytes each, 0 past the end.
#[tactic(auto, using(cfb_chains::proofs::Blocks::u32_at_past))]
fn number(bytes: &[u8], k: usize) -> u32
    requires whole { (m : ℕ) × (length bytes.now ≡ 4 * m) }
    requires fits { k < 2 ^ 60 }
    ensures { result ≡ u32_at bytes.now (4 * k) }
{
    if 4 * k < bytes.len() {
        read_u32(bytes, 4 * k)
    } else {
        0
    }
}

/// So many numbers of four bytes each, 0 for those past the end.
pub(crate) fn numbers(alloc: Global, bytes: &[u8], count: usize) -> Result<Vec<u32>, AllocError>
    requires whole { (m : ℕ) × (length bytes.now ≡ 4 * m) }
    requires fits { count < 2 ^ 60 }
    ensures count { IfOk result (λ v. length v.items ≡ count) }
    ensures each { IfOk result (λ v. (k : ℕ) → k < count → slice_index v.items k ≡ u32_at bytes.now (4 * k)) }
{
    let mut numbers = Vec::with_capacity(alloc, count)?;
    for k in 0..count {
        numbers.push(number(bytes, k))?;
    }
    Ok(numbers)
}
