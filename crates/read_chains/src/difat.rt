//! The sectors of the FAT, as the header and the DIFAT list them (MS-CFB 2.2, 2.5).

ghost use Rattle.cfb_header.specs.Bytes.{sector, u32_at};
ghost use Rattle.cfb_header.specs.Header.{MOST_FAT_SECTORS, difat_by, fat_by, named_in};
ghost use Rattle.read_chains.specs.View.{image_bytes};
ghost use Rattle.std.specs.Prelude.{◌≡◌, ◌≤◌, ◌++◌, IfOk, OnOk, length};

use crate::image::Image;
use crate::table::table_in;
use cfb_header::header::{Header, NAMED};
use std::alloc::{AllocError, Global};

/// The sectors in which the FAT of a file lies, and the DIFAT's, which list those that the header has no room for.
#[derive(Drop)]
pub struct FatSectors {
    /// The FAT's, in order.
    pub fat: Vec<u32>,
    /// The DIFAT's, in order.
    pub difat: Vec<u32>,
}

/// Adds the FAT sectors that a DIFAT sector names, and gives the DIFAT sector that it names as the next.
fn read_named(
    alloc: Global,
    file: &Image<'_>,
    n: u32,
    fat: &mut Vec<u32>,
) -> Result<u32, AllocError>
    ensures named { OnOk result (fat.new.items ≡ fat.old.items ++ named_in (image_bytes file.now) n) }
    ensures next { IfOk result (λ next. next ≡ u32_at (sector (image_bytes file.now) n) 508) }
{
    let mut numbers = table_in(alloc, file, &[n], NAMED + 1)?;
    let next = numbers[NAMED];
    numbers.truncate(NAMED);
    fat.extend_from_slice(&numbers)?;
    Ok(next)
}

/// The DIFAT sector that a DIFAT sector names as the next.
pub fn next_difat(alloc: Global, file: &Image<'_>, n: u32) -> Result<u32, AllocError>
    ensures { IfOk result (λ next. next ≡ u32_at (sector (image_bytes file.now) n) 508) }
{
    let numbers = table_in(alloc, file, &[n], NAMED + 1)?;
    Ok(numbers[NAMED])
}

/// The sectors of a file's FAT and DIFAT, whether they are there or not. As many DIFAT sectors are walked as the header
/// says; what the last one names as the next, and sectors past the number of FAT sectors, are ignored.
pub fn fat_sectors(
    alloc: Global,
    header: &Header,
    file: &Image<'_>,
) -> Result<FatSectors, AllocError>
    ensures fat { IfOk result (λ s. s.fat.items ≡ fat_by (image_bytes file.now) header.now) }
    ensures few { IfOk result (λ s. length s.fat.items ≤ MOST_FAT_SECTORS) }
    ensures difat { IfOk result (λ s. s.difat.items ≡ difat_by (image_bytes file.now) header.now) }
{
    let mut fat = Vec::from_slice(alloc, header.fat())?;
    let mut difat = Vec::new(alloc);
    let mut at = header.first_difat();
    for _ in 0..header.difat_count() {
        difat.push(at)?;
        at = read_named(alloc, file, at, &mut fat)?;
    }
    fat.truncate(header.fat_count() as usize);
    Ok(FatSectors { fat, difat })
}
