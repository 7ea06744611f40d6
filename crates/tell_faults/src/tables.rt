//! The FAT of a file and its entries.

ghost use Rattle.cfb_chains.specs.Fat.{IsTableOf};
ghost use Rattle.cfb_header.specs.Header.{header_of};
ghost use Rattle.tell_faults.specs.Tables.{AreListsOf, AreTablesOf};
ghost use Rattle.std.specs.Prelude.{◌≡◌, IfOk};

use cfb_header::header::Header;
use read_chains::difat::fat_sectors;
use read_chains::fat::Fat;
use read_chains::image::Image;
use read_chains::table::entries;
use std::alloc::{AllocError, Global};

/// The FAT of a file.
#[derive(Drop)]
pub struct Tables<'a> {
    /// The table over the file.
    pub fat: Fat<'a>,
    /// The sectors of the FAT, and then those of the DIFAT.
    pub lists: Vec<u32>,
    /// What stands in its entries.
    pub entries: Vec<u32>,
}

/// What a file lists of its FAT, be that at fault or not.
#[derive(Drop)]
pub(crate) struct Lists {
    /// The sectors of the FAT.
    pub(crate) fat: Vec<u32>,
    /// The sectors of the DIFAT.
    pub(crate) difat: Vec<u32>,
    /// What stands in the FAT's entries.
    pub(crate) entries: Vec<u32>,
}

/// What a file with this header lists of its FAT.
pub(crate) fn lists_of(alloc: Global, header: &Header, file: &[u8]) -> Result<Lists, AllocError>
    requires same { header.now ≡ header_of file.now }
    ensures { IfOk result (λ l. AreListsOf file.now l.fat.items l.difat.items l.entries.items) }
{
    let image = Image::Whole(file);
    let own = fat_sectors(alloc, header, &image)?;
    let entries = entries(alloc, &image, &own.fat)?;
    Ok(Lists {
        fat: own.fat,
        difat: own.difat,
        entries,
    })
}

/// The FAT of a file with this header, whose table is given.
pub fn tables_of<'a>(
    alloc: Global,
    header: &Header,
    file: &[u8],
    fat: Fat<'a>,
) -> Result<Tables<'a>, AllocError>
    requires same { header.now ≡ header_of file.now }
    requires table { IsTableOf file.now header.now fat }
    ensures { IfOk result (λ t. AreTablesOf file.now t.fat t.lists.items t.entries.items) }
{
    let own = lists_of(alloc, header, file)?;
    let mut lists = own.fat;
    lists.extend_from_slice(&own.difat)?;
    Ok(Tables {
        fat,
        lists,
        entries: own.entries,
    })
}
