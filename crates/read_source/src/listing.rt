//! The sectors of the DIFAT and of the FAT, read into their places.

ghost use Rattle.cfb_bytes.specs.Bytes.{block};
ghost use Rattle.cfb_header.specs.Header.{difat_by, fat_by};
ghost use Rattle.read_source.specs.Filled.{AreListsRead, IsOfReading, IsRead};
ghost use Rattle.std.specs.Prelude.{◌≡◌, ◌≤◌, ◌^◌, IfErr, IfOk, IfSome, OnOk, length};

use crate::fault::PlacesFault;
use crate::sectors::read_sectors;
use crate::source::Source;
use cfb_header::header::Header;
use read_chains::difat::{FatSectors, fat_sectors, next_difat};
use read_chains::image::Image;
use read_packed::places::{Held, Places};
use std::alloc::Global;

/// Reads the sectors of the DIFAT, each of which names the next.
fn read_difat<S: Source>(
    alloc: Global,
    source: &mut S,
    file: &mut Places,
    header: &Header,
) -> Result<(), PlacesFault>
    ensures len { length file.new ≡ length file.old }
    ensures front { OnOk result (block 512 file.new 0 ≡ block 512 file.old 0) }
    ensures read { OnOk result (IfSome (S.bytes source.old) (λ a. length a ≡ length file.old
        → IsRead a file.old file.new (difat_by a header.now))) }
    ensures told { IfErr result IsOfReading }
    ensures kept { S.bytes source.new ≡ S.bytes source.old }
{
    let mut at = header.first_difat();
    for _ in 0..header.difat_count() {
        read_sectors(alloc, source, file, &[at], Held::Plain)?;
        at = next_difat(alloc, &Image::Placed(file), at)?;
    }
    Ok(())
}

/// Reads the sectors of the DIFAT and of the FAT, and gives their numbers.
pub(crate) fn read_lists<S: Source>(
    alloc: Global,
    source: &mut S,
    file: &mut Places,
    header: &Header,
) -> Result<FatSectors, PlacesFault>
    ensures len { length file.new ≡ length file.old }
    ensures front { IfOk result (λ _. block 512 file.new 0 ≡ block 512 file.old 0) }
    ensures read { IfOk result (λ s. IfSome (S.bytes source.old) (λ a. length a ≡ length file.old
        → AreListsRead a file.old file.new header.now s.fat.items)) }
    ensures told { IfErr result IsOfReading }
    ensures few { IfOk result (λ s. length s.fat.items ≤ 2 ^ 32) }
    ensures kept { S.bytes source.new ≡ S.bytes source.old }
{
    read_difat(alloc, source, file, header)?;
    let sectors = fat_sectors(alloc, header, &Image::Placed(file))?;
    read_sectors(alloc, source, file, &sectors.fat, Held::Plain)?;
    Ok(sectors)
}
