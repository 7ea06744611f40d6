//! Where the parts of a file lie, and what stands in its tables.

ghost use Rattle.cfb_header.specs.Header.{header_read};
ghost use Rattle.cfb_file.specs.Denotes.{Denotes};
ghost use Rattle.write_zeros.specs.Parts.{AreFollowed, ArePartsOf};
ghost use Rattle.write_zeros.specs.Taken.{IsTableIn};
ghost use Rattle.cfb_entries.specs.Entries.{entry_at, first_of, size_of};
ghost use Rattle.std.specs.Prelude.{◌≡◌, ◌≤◌, IfOk, List, Ok, length, take};
ghost use Rattle.cfb_entries.specs.Tree.{Tree};

use crate::chains::{chain_of, joined_of, numbers_in};
use crate::entries::entry_of;
use cfb_bytes::numbers::read_u32;
use cfb_header::header::Header;
use read_chains::difat::{FatSectors, fat_sectors};
use read_chains::image::Image;
use read_chains::table::chain_from;
use std::alloc::{AllocError, Global};

/// The sectors of the chains that the system's own parts have, and the bytes of the directory.
#[derive(Drop)]
pub(crate) struct Chains {
    pub(crate) directory: Vec<u32>,
    pub(crate) entries: Vec<u8>,
    pub(crate) mini_fat: Vec<u32>,
    pub(crate) mini_stream: Vec<u32>,
}

/// The parts of a file: their sectors, the entries of its tables, and the bytes of its mini stream.
#[derive(Drop)]
pub(crate) struct Parts {
    pub(crate) own: FatSectors,
    pub(crate) next: Vec<u32>,
    pub(crate) chains: Chains,
    pub(crate) next_mini: Vec<u32>,
    pub(crate) shorts: Vec<u8>,
}

/// The numbers in sectors of a file.
fn table_in(alloc: Global, file: &[u8], sectors: &[u32]) -> Result<Vec<u32>, AllocError>
    ensures { IfOk result (λ v. IsTableIn file.now sectors.now v.items) }
{
    let bytes = joined_of(alloc, file, sectors)?;
    let numbers = numbers_in(alloc, &bytes)?;
    Ok(numbers)
}

/// Where a chain begins, and for how many bytes it is to have room.
#[derive(Clone, Copy)]
struct Start {
    first: u32,
    size: u32,
}

/// Where the mini stream of a directory begins, and its size, as the root's entry tells.
fn mini_start(entries: &[u8]) -> Start
    ensures first { 128 ≤ length entries.now → result.first ≡ first_of (entry_at entries.now 0) }
    ensures size { 128 ≤ length entries.now → result.size ≡ size_of (entry_at entries.now 0) }
{
    match entry_of(entries, 0) {
        Some(root) => Start {
            first: read_u32(root, 116),
            size: read_u32(root, 120),
        },
        None => Start { first: 0, size: 0 },
    }
}

/// The chains of the system's own parts, by the entries of the FAT.
fn chains_of(
    alloc: Global,
    header: &Header,
    file: &[u8],
    next: &[u32],
) -> Result<Chains, AllocError>
    ensures { IfOk result (AreFollowed file.now next.now header.now) }
{
    let directory = chain_from(alloc, next, header.first_directory())?;
    let entries = joined_of(alloc, file, &directory)?;
    let mini_fat = chain_of(
        alloc,
        next,
        header.first_mini_fat(),
        header.mini_fat_count(),
    )?;
    let root = mini_start(&entries);
    let mini_stream = chain_of(alloc, next, root.first, root.size)?;
    Ok(Chains {
        directory,
        entries,
        mini_fat,
        mini_stream,
    })
}

/// The numbers in the first sectors of a chain, of which so many count.
fn table_of(alloc: Global, file: &[u8], sectors: &[u32], count: u32) -> Result<Vec<u32>, AllocError>
    ensures { IfOk result (λ v. IsTableIn file.now (take count sectors.now) v.items) }
{
    table_in(alloc, file, &sectors[..sectors.len().min(count as usize)])
}

/// The parts of a file that has this header.
pub(crate) fn parts_of(alloc: Global, header: &Header, file: &[u8]) -> Result<Parts, AllocError>
    requires { header_read file.now ≡ Ok header.now }
    ensures { IfOk result (λ p. (t : Tree) (d : Denotes file.now t) → ArePartsOf file.now d.layout p) }
{
    let own = fat_sectors(alloc, header, &Image::Whole(file))?;
    let next = table_in(alloc, file, &own.fat)?;
    let chains = chains_of(alloc, header, file, &next)?;
    let next_mini = table_of(alloc, file, &chains.mini_fat, header.mini_fat_count())?;
    let shorts = joined_of(alloc, file, &chains.mini_stream)?;
    Ok(Parts {
        own,
        next,
        chains,
        next_mini,
        shorts,
    })
}
