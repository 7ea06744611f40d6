//! Tables of sectors, as they are made of the parts that have these.

ghost use Rattle.cfb_header.specs.Header.{END_OF_CHAIN as END};
ghost use Rattle.cfb_file.specs.declared.limit.TheConstants.{MOST_FAT_SECTORS};
ghost use Rattle.std.specs.Prelude.{◌≡◌, ◌≤◌, IfSome, slice_index_or};

use crate::bytes::{SECTOR, set_number};
use crate::parts::{DIFAT, DIRECTORY, FAT, Part, sectors_of};
use cfb_file::limit::MOST_FAT_SECTORS;
use cfb_file::need::difat_sectors;
use cfb_header::header::{END_OF_CHAIN, LISTED, NAMED};
use std::alloc::{AllocError, Global};

/// The value of a sector that holds a part of the FAT.
const FAT_SECTOR: u32 = 0xffff_fffd;

/// The value of a sector that holds a part of the DIFAT.
const DIFAT_SECTOR: u32 = 0xffff_fffc;

/// One of some sectors, or the value that ends a chain where there is none.
pub(crate) fn at_or_end(sectors: &[u32], at: usize) -> u32
    ensures { result ≡ slice_index_or sectors.now at END }
{
    match sectors.get(at) {
        Some(sector) => *sector,
        None => END_OF_CHAIN,
    }
}

/// The sector behind the last one of the first ones, so many.
fn end_of(sectors: &[u32], count: usize) -> usize {
    let mut end = 0;
    for sector in &sectors[..count.min(sectors.len())] {
        end = end.max(*sector as usize + 1);
    }
    end
}

/// The least number of FAT sectors with an entry for each sector up to the last one: those that parts keep, and those
/// that all parts take with the FAT and the DIFAT. None where that is above the limit.
pub(crate) fn fat_count(parts: &[Part<'_>]) -> Option<u32>
    ensures { IfSome result (λ count. count ≤ MOST_FAT_SECTORS) }
{
    let mut taken: usize = 0;
    let mut end = 0;
    for part in &parts[DIRECTORY.min(parts.len())..] {
        if !part.short {
            taken = taken.saturating_add(part.count);
            end = end.max(end_of(&part.sectors, part.count));
        }
    }
    for fat in 0..MOST_FAT_SECTORS + 1 {
        let difat = difat_sectors(fat);
        let all = taken.saturating_add((fat + difat) as usize);
        let kept = end_of(sectors_of(parts, FAT), fat as usize);
        let listed = end_of(sectors_of(parts, DIFAT), difat as usize);
        if all.max(end).max(kept).max(listed) <= 128 * fat as usize {
            return Some(fat);
        }
    }
    None
}

/// The table, of so many sectors, of the parts in mini sectors, or of those in sectors: each sector names the next one
/// of its part.
pub(crate) fn table_of(
    alloc: Global,
    parts: &[Part<'_>],
    short: bool,
    count: usize,
) -> Result<Vec<u8>, AllocError> {
    let mut table = vec![in alloc; 0xff; SECTOR.saturating_mul(count)]?;
    for part in parts {
        if part.short == short {
            for k in 0..part.sectors.len() {
                let next = at_or_end(&part.sectors, k + 1);
                set_number(&mut table, part.sectors[k] as usize, next);
            }
        }
    }
    Ok(table)
}

/// The FAT: the table of the parts in sectors, in which those of the FAT and the DIFAT have values of their own.
pub(crate) fn fat_of(alloc: Global, parts: &[Part<'_>]) -> Result<Vec<u8>, AllocError> {
    let fat = sectors_of(parts, FAT);
    let mut table = table_of(alloc, parts, false, fat.len())?;
    for sector in fat {
        set_number(&mut table, *sector as usize, FAT_SECTOR);
    }
    for sector in sectors_of(parts, DIFAT) {
        set_number(&mut table, *sector as usize, DIFAT_SECTOR);
    }
    Ok(table)
}

/// The DIFAT: the FAT's sectors that the header has no room for, in each sector as many as it names, and its next
/// sector.
pub(crate) fn difat_of(alloc: Global, parts: &[Part<'_>]) -> Result<Vec<u8>, AllocError> {
    let fat = sectors_of(parts, FAT);
    let difat = sectors_of(parts, DIFAT);
    let mut numbers = vec![in alloc; 0xff; SECTOR.saturating_mul(difat.len())]?;
    for k in LISTED..fat.len() {
        let at = k - LISTED;
        set_number(&mut numbers, 128 * (at / NAMED) + at % NAMED, fat[k]);
    }
    for k in 0..difat.len() {
        set_number(&mut numbers, 128 * k + NAMED, at_or_end(difat, k + 1));
    }
    Ok(numbers)
}
