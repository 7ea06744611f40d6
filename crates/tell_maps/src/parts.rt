//! Which sectors the parts of a file have that lie in chains.

ghost use Rattle.cfb_entries.specs.Tree.{Tree};
ghost use Rattle.cfb_file.specs.Alike.{Alike};
ghost use Rattle.cfb_file.specs.Denotes.{Denotes, directory_of};
ghost use Rattle.cfb_header.specs.Header.{header_read};
ghost use Rattle.read_outlines.specs.Places.{IsTold};
ghost use Rattle.read_streams.specs.Chains.{IsFatOf};
ghost use Rattle.tell_maps.specs.Parts.{AreParts};
ghost use Rattle.std.specs.Prelude.{◌≡◌, IfOk, List, Ok, ℕ};

use crate::streams::{all_sectors, chain_of};
use cfb_header::header::Header;
use read_chains::links::Links;
use read_outlines::outline::Outline;
use read_packed::places::Places;
use read_streams::blocks::root_place;
use read_streams::chains::follow;
use std::alloc::{AllocError, Global};

/// The sectors of each part.
#[derive(Drop)]
pub(crate) struct Parts {
    pub(crate) mini_fat: Vec<u32>,
    pub(crate) directory: Vec<u32>,
    pub(crate) mini_stream: Vec<u32>,
    pub(crate) streams: Vec<u32>,
}

/// The sectors of the parts of a file of this outline, given the FAT's entries and the blocks that its listing needs.
pub(crate) fn parts_of(
    alloc: Global,
    header: &Header,
    file: &Places,
    table: &Links<'_>,
    outline: &Outline,
) -> Result<Parts, AllocError>
    requires read { header_read file.now ≡ Ok header.now }
    ensures found { IfOk result (λ parts. (a : List ℕ) → Alike a file.now → (t : Tree) → (d : Denotes a t)
        → IsFatOf a d.layout table.now → IsTold (directory_of a d.layout) 0 outline.now
        → AreParts d.layout d.used.sectors parts) }
{
    let mini_fat_size = 512 * header.mini_fat_count() as usize;
    let mini_fat = chain_of(alloc, table, header.first_mini_fat(), mini_fat_size)?;
    let directory = follow(alloc, table, header.first_directory(), table.len())?;
    let root = root_place(alloc, header, file)?;
    let mini_stream = chain_of(alloc, table, root.first, root.size as usize)?;
    let streams = all_sectors(alloc, table, outline)?;
    Ok(Parts {
        mini_fat,
        directory,
        mini_stream,
        streams,
    })
}
