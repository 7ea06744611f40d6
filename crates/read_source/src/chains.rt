//! The chains of a file whose FAT was read.

ghost use Rattle.read_source.specs.Filled.{AreFound};
ghost use Rattle.std.specs.Prelude.{◌≤◌, ◌^◌, IfOk, length};

use cfb_header::header::Header;
use read_chains::image::Image;
use read_chains::links::Links;
use read_chains::table::linked_from;
use read_packed::places::Places;
use std::alloc::{AllocError, Global};

/// The chains of sectors that a listing needs, each empty where the FAT's entries lead to no end.
#[derive(Drop)]
pub(crate) struct Chains {
    /// The directory's.
    pub(crate) directory: Vec<u32>,
    /// The mini FAT's.
    pub(crate) mini_fat: Vec<u32>,
}

/// The chains of a file whose FAT lies in these sectors, which were read.
pub(crate) fn find_chains(
    alloc: Global,
    file: &Places,
    fat: &[u32],
    header: &Header,
) -> Result<Chains, AllocError>
    requires { length fat.now ≤ 2 ^ 32 }
    ensures { IfOk result (λ c. AreFound file.now fat.now header.now c.directory.items c.mini_fat.items) }
{
    let table = Links::read(alloc, &Image::Placed(file), fat)?;
    let directory = linked_from(alloc, &table, header.first_directory())?;
    let mini_fat = linked_from(alloc, &table, header.first_mini_fat())?;
    Ok(Chains {
        directory,
        mini_fat,
    })
}
