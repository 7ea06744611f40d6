//! The entries of the FAT, and the sectors that follow one another by them.

ghost use Rattle.cfb_header.specs.Bytes.{joined, sector, u32_at};
ghost use Rattle.cfb_chains.specs.Chain.{END_OF_CHAIN, Leads};
ghost use Rattle.cfb_chains.specs.Fat.{followed, sectors_in};
ghost use Rattle.read_chains.specs.View.{image_bytes};
ghost use Rattle.std.specs.List.{All};
ghost use Rattle.std.specs.Prelude.{◌*◌, ◌<◌, ◌≤◌, ◌^◌, ◌≡◌, IfOk, List, length, min, slice_index, ℕ};

use crate::image::Image;
use crate::links::Links;
use crate::sectors::numbers;
use cfb_header::header::END_OF_CHAIN;
use std::alloc::{AllocError, Global};

/// The first entries of a FAT that lies in these sectors, zero standing for those that it doesn't have.
pub(crate) fn table_in(
    alloc: Global,
    file: &Image<'_>,
    sectors: &[u32],
    count: usize,
) -> Result<Vec<u32>, AllocError>
    requires fits { count < 2 ^ 60 }
    ensures count { IfOk result (λ v. length v.items ≡ count) }
    ensures each { IfOk result (λ v. (k : ℕ) → k < count → slice_index v.items k
        ≡ u32_at (joined (sector (image_bytes file.now)) sectors.now) (4 * k)) }
{
    let bytes = file.join(alloc, sectors)?;
    let table = numbers(alloc, &bytes, count)?;
    Ok(table)
}

/// How many sectors have an entry in a FAT of so many sectors and begin before the end of a file.
pub(crate) fn count_entries(fat_count: usize, file: &Image<'_>) -> usize
    requires { fat_count ≤ 2 ^ 32 }
    ensures { result ≡ min (128 * fat_count) (sectors_in (image_bytes file.now)) }
{
    (128 * fat_count).min(file.count_sectors())
}

/// The entries of the FAT of a file, which lies in these sectors, whether they are there or not.
pub fn entries(alloc: Global, file: &Image<'_>, fat: &[u32]) -> Result<Vec<u32>, AllocError>
    requires { length fat.now ≤ 2 ^ 32 }
    ensures count { IfOk result (λ v. length v.items ≡ min (128 * length fat.now) (sectors_in (image_bytes file.now))) }
    ensures each { IfOk result (λ v. (k : ℕ) → k < length v.items → slice_index v.items k
        ≡ u32_at (joined (sector (image_bytes file.now)) fat.now) (4 * k)) }
{
    table_in(alloc, file, fat, count_entries(fat.len(), file))
}

/// The sectors from one on, each followed by the one that its entry names, as far as entries go.
pub(crate) fn follow(alloc: Global, table: &Links<'_>, start: u32) -> Result<Vec<u32>, AllocError>
    ensures listed { IfOk result (λ v. v.items ≡ followed table.now (length table.now) start) }
    ensures below { IfOk result (λ v. All (λ n. n < length table.now) v.items) }
{
    let mut sectors = Vec::new(alloc);
    let mut at = start;
    while sectors.len() < table.len() && (at as usize) < table.len() {
        sectors.push(at)?;
        at = table.entry(at as usize);
    }
    Ok(sectors)
}

/// The sectors of the chain that begins with one, and none where the entries lead to no end.
pub fn linked_from(alloc: Global, table: &Links<'_>, start: u32) -> Result<Vec<u32>, AllocError>
    ensures { IfOk result (λ v. (ns : List ℕ) → length table.now ≤ END_OF_CHAIN
        → Leads (slice_index table.now) start ns END_OF_CHAIN → All (λ n. n < length table.now) ns → v.items ≡ ns) }
{
    let sectors = follow(alloc, table, start)?;
    let Some(last) = sectors.last() else {
        return Ok(sectors);
    };
    if table.entry(*last as usize) != END_OF_CHAIN {
        return Ok(Vec::new(alloc));
    }
    Ok(sectors)
}

/// The sectors of the chain that begins with one by the entries of a table, and none where these lead to no end.
pub fn chain_from(alloc: Global, table: &[u32], start: u32) -> Result<Vec<u32>, AllocError>
    ensures { IfOk result (λ v. (ns : List ℕ) → length table.now ≤ END_OF_CHAIN
        → Leads (slice_index table.now) start ns END_OF_CHAIN → All (λ n. n < length table.now) ns → v.items ≡ ns) }
{
    linked_from(alloc, &Links::lent(table), start)
}
