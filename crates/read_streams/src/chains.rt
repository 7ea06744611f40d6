//! The chains of a file of which some blocks were read.

ghost use Rattle.cfb_chains.specs.Fat.{followed};
ghost use Rattle.cfb_header.specs.Bytes.{block, joined, sector, u32_at};
ghost use Rattle.std.specs.List.{range_with_len};
ghost use Rattle.std.specs.Prelude.{◌*◌, ◌++◌, ◌<◌, ◌≡◌, ◌≤◌, IfOk, List, OnOk, length, map, true, ℕ};
ghost use Rattle.read_streams.specs.Chains.{begins_at, walked};

use cfb_bytes::numbers::read_u32;
use read_chains::links::Links;
use read_packed::places::Places;
use std::alloc::{AllocError, Global};

/// The sectors from one on, each followed by the one that its entry names, as far as entries go, and no more than so
/// many.
pub fn follow(
    alloc: Global,
    table: &Links<'_>,
    first: u32,
    count: usize,
) -> Result<Vec<u32>, AllocError>
    ensures { IfOk result (λ v. v.items ≡ followed table.now count first) }
{
    let mut sectors = Vec::new(alloc);
    let mut at = first;
    while sectors.len() < count && (at as usize) < table.len() {
        sectors.push(at)?;
        at = table.entry(at as usize);
    }
    Ok(sectors)
}

/// The bytes of sectors, one after another.
pub(crate) fn join(alloc: Global, file: &Places, sectors: &[u32]) -> Result<Vec<u8>, AllocError>
    ensures { IfOk result (λ v. v.items ≡ joined (sector file.now) sectors.now) }
{
    let mut out = Vec::with_capacity(alloc, 512usize.saturating_mul(sectors.len()))?;
    for n in sectors {
        file.push_block(&mut out, *n as usize + 1)?;
    }
    Ok(out)
}

/// Number k of four bytes each, 0 past the end.
pub(crate) fn number(bytes: &[u8], k: u32) -> u32
    requires whole { (m : ℕ) × (length bytes.now ≡ 4 * m) }
    ensures { result ≡ u32_at bytes.now (4 * k) }
{
    let at = 4 * k as usize;
    if at < bytes.len() {
        read_u32(bytes, at)
    } else {
        0
    }
}

/// So many mini sectors from one on, each followed by the one that its entry in the mini FAT names.
pub fn follow_minis(
    alloc: Global,
    mini_fat: &[u8],
    first: u32,
    count: usize,
) -> Result<Vec<u32>, AllocError>
    requires whole { (m : ℕ) × (length mini_fat.now ≡ 4 * m) }
    ensures { IfOk result (λ v. v.items ≡ walked (λ n. u32_at mini_fat.now (4 * n)) first count) }
{
    let mut minis = Vec::new(alloc);
    let mut at = first;
    for _ in 0..count {
        minis.push(at)?;
        at = number(mini_fat, at);
    }
    Ok(minis)
}

/// Whether so many mini sectors from one on follow one another, each at the next number.
pub fn are_in_a_row(mini_fat: &[u8], first: u32, count: usize) -> bool
    requires whole { (m : ℕ) × (length mini_fat.now ≡ 4 * m) }
    ensures { result ≡ true → walked (λ n. u32_at mini_fat.now (4 * n)) first count ≡ range_with_len first count }
{
    let mut at = first;
    let mut left = count;
    while left > 1 {
        let next = number(mini_fat, at);
        if next as usize != at as usize + 1 {
            return false;
        }
        at = next;
        left -= 1;
    }
    true
}

/// Where a mini sector begins in the file, given the sectors of the mini stream; 0 past their end.
fn mini_place(mini_stream: &[u32], mini: u32) -> usize
    ensures { result ≡ begins_at mini_stream.now mini }
{
    match mini_stream.get(mini as usize / 8) {
        Some(n) => 512 * (*n as usize + 1) + 64 * (mini as usize % 8),
        None => 0,
    }
}

/// Where mini sectors begin in the file.
pub(crate) fn mini_places(
    alloc: Global,
    mini_stream: &[u32],
    minis: &[u32],
) -> Result<Vec<usize>, AllocError>
    ensures { IfOk result (λ v. v.items ≡ map (begins_at mini_stream.now) minis.now) }
{
    let mut places = Vec::with_capacity(alloc, minis.len())?;
    for mini in minis {
        places.push(mini_place(mini_stream, *mini))?;
    }
    Ok(places)
}
