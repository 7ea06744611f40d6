//! The bytes of a file, all or some of which are in memory.

ghost use Rattle.cfb_bytes.specs.Bytes.{block};
ghost use Rattle.cfb_header.specs.Bytes.{joined, sector};
ghost use Rattle.cfb_chains.specs.Fat.{sectors_in};
ghost use Rattle.read_chains.specs.View.{image_bytes};
ghost use Rattle.std.specs.Prelude.{◌≡◌, IfOk, IfSome, length};

use crate::sectors::{SECTOR, are_consecutive, join_blocks, run_of};
use read_packed::packed::PackedEntries;
use read_packed::places::Places;
use std::alloc::{AllocError, Global};

/// The bytes of a file.
#[derive(Clone, Copy)]
pub enum Image<'a> {
    /// All of them.
    Whole(&'a [u8]),
    /// Some of them, zero bytes standing for the others.
    Placed(&'a Places),
}

/// The bytes of sectors of a file of which some blocks were read, one after another.
pub(crate) fn join_placed(
    alloc: Global,
    file: &Places,
    sectors: &[u32],
) -> Result<Vec<u8>, AllocError>
    ensures { IfOk result (λ v. v.items ≡ joined (sector file.now) sectors.now) }
{
    let mut out = Vec::with_capacity(alloc, SECTOR.saturating_mul(sectors.len()))?;
    for n in sectors {
        file.push_block(&mut out, *n as usize + 1)?;
    }
    Ok(out)
}

/// The bytes of sectors of a file of which some blocks were read, where they stand one after another and were read so.
fn run_placed<'a>(file: &'a Places, sectors: &[u32]) -> Option<&'a [u8]>
    ensures { IfSome result (λ run. run.now ≡ joined (sector file.now) sectors.now) }
{
    let first = *sectors.first()?;
    if !are_consecutive(first, sectors) {
        return None;
    }
    let run = file.run(first as usize + 1, sectors.len())?;
    Some(run)
}

/// The bytes of sectors of a file of which some blocks were read, where they were read as all entries of a directory.
fn entries_placed<'a>(file: &'a Places, sectors: &[u32]) -> Option<&'a PackedEntries>
    ensures { IfSome result (λ entries. entries.now ≡ joined (sector file.now) sectors.now) }
{
    let entries = file.entries(sectors)?;
    Some(entries)
}

impl<'a> Image<'a> {
    /// How many bytes there are.
    fn len(&self) -> usize
        ensures { result ≡ length (image_bytes self.now) }
    {
        match self {
            Image::Whole(file) => file.len(),
            Image::Placed(file) => file.len(),
        }
    }

    /// How many sectors begin before the end.
    pub(crate) fn count_sectors(&self) -> usize
        ensures { result ≡ sectors_in (image_bytes self.now) }
    {
        self.len().saturating_sub(1) / SECTOR
    }

    /// The bytes of sectors, one after another.
    pub(crate) fn join(&self, alloc: Global, sectors: &[u32]) -> Result<Vec<u8>, AllocError>
        ensures { IfOk result (λ v. v.items ≡ joined (sector (image_bytes self.now)) sectors.now) }
    {
        match self {
            Image::Whole(file) => join_blocks(alloc, SECTOR, file, SECTOR, sectors),
            Image::Placed(file) => join_placed(alloc, file, sectors),
        }
    }

    /// The bytes of sectors, where they stand one after another in memory.
    pub fn run(&self, sectors: &[u32]) -> Option<&'a [u8]>
        ensures { IfSome result (λ run. run.now ≡ joined (sector (image_bytes self.now)) sectors.now) }
    {
        match self {
            Image::Whole(file) => run_of(SECTOR, file, SECTOR, sectors),
            Image::Placed(file) => run_placed(file, sectors),
        }
    }

    /// The bytes of sectors, where they are held as the entries of a directory.
    pub(crate) fn entries(&self, sectors: &[u32]) -> Option<&'a PackedEntries>
        ensures { IfSome result (λ entries. entries.now ≡ joined (sector (image_bytes self.now)) sectors.now) }
    {
        match self {
            Image::Whole(_) => None,
            Image::Placed(file) => entries_placed(file, sectors),
        }
    }
}
