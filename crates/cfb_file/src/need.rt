//! The room that a tree needs in a compound file (MS-CFB 2.3, 2.5).

ghost use Rattle.cfb_file.specs.Need.{difat_sectors as difat_needed, fat_sectors as fat_needed};
ghost use Rattle.std.specs.Prelude.{◌<◌, ◌^◌, ◌≡◌, ◌≤◌};

use cfb_header::header::{LISTED, NAMED};

/// The least number of FAT sectors whose entries cover so many sectors, themselves and those of the DIFAT.
pub fn fat_sectors(sectors: u32) -> u32
    requires { sectors < 2 ^ 31 }
    ensures { result ≡ fat_needed sectors }
{
    let difat = sectors.saturating_sub(13_843).div_ceil(16_128);
    (sectors + difat).div_ceil(127)
}

/// The DIFAT sectors that name the FAT sectors for which the header has no room.
pub fn difat_sectors(fat: u32) -> u32
    ensures value { result ≡ difat_needed fat }
    ensures few { result ≤ fat }
{
    fat.saturating_sub(LISTED as u32).div_ceil(NAMED as u32)
}
