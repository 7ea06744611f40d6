//! Where the parts of an older file lie.

ghost use Rattle.cfb_chains.specs.Chain.{END_OF_CHAIN as END, Leads};
ghost use Rattle.std.specs.List.{All};
ghost use Rattle.std.specs.Prelude.{[], ◌<◌, ◌≡◌, ◌≤◌, IfOk, List, length, slice_index, ℕ};

use crate::bytes::{SECTOR, number_at, numbers_in, piece};
use crate::parts::{MINI_FAT, Part, sectors_of};
use cfb_header::header::Header;
use read_chains::difat::{FatSectors, fat_sectors};
use read_chains::image::Image;
use read_chains::table::{chain_from, entries};
use std::alloc::{AllocError, Global};

/// The parts of a file in an older one's sectors, and the tables of its sectors and mini sectors.
#[derive(Drop)]
pub(crate) struct Older<'a> {
    pub parts: Vec<Part<'a>>,
    pub next: Vec<u32>,
    pub next_mini: Vec<u32>,
}

/// The chain that begins with a sector, or none where it is to hold nothing.
pub(crate) fn chain_of(
    alloc: Global,
    table: &[u32],
    first: u32,
    size: u32,
) -> Result<Vec<u32>, AllocError>
    ensures none { IfOk result (λ v. size ≡ 0 → v.items ≡ []) }
    ensures chain { IfOk result (λ v. (ns : List ℕ) → 0 < size → length table.now ≤ END
        → Leads (slice_index table.now) first ns END → All (λ n. n < length table.now) ns → v.items ≡ ns) }
{
    if size == 0 {
        return Ok(Vec::new(alloc));
    }
    chain_from(alloc, table, first)
}

/// Adds one of the system's parts, which lies in these sectors.
fn push_own(parts: &mut Vec<Part<'_>>, sectors: Vec<u32>) -> Result<(), AllocError> {
    let count = sectors.len();
    parts.push(Part {
        bytes: &[],
        short: false,
        count,
        sectors,
    })?;
    Ok(())
}

/// The system's parts of a file that has this header, and its tables.
pub(crate) fn older_of<'a>(
    alloc: Global,
    header: &Header,
    file: &[u8],
) -> Result<Older<'a>, AllocError> {
    let image = Image::Whole(file);
    let FatSectors { fat, difat } = fat_sectors(alloc, header, &image)?;
    let next = entries(alloc, &image, &fat)?;
    let directory = chain_from(alloc, &next, header.first_directory())?;
    let mini_fat = chain_of(
        alloc,
        &next,
        header.first_mini_fat(),
        header.mini_fat_count(),
    )?;
    let next_mini = numbers_in(alloc, file, &mini_fat)?;
    let root = piece(file, SECTOR, header.first_directory() as usize + 1);
    let mini_stream = chain_of(alloc, &next, number_at(root, 29), number_at(root, 30))?;
    let mut parts = Vec::new(alloc);
    push_own(&mut parts, fat)?;
    push_own(&mut parts, difat)?;
    push_own(&mut parts, directory)?;
    push_own(&mut parts, mini_fat)?;
    push_own(&mut parts, mini_stream)?;
    Ok(Older {
        parts,
        next,
        next_mini,
    })
}
