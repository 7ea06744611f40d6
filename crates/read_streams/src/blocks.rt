//! Where the stream of a place lies.

ghost use Rattle.cfb_entries.specs.Entries.{first_of, size_of};
ghost use Rattle.cfb_header.specs.Bytes.{joined, sector, u32_at};
ghost use Rattle.cfb_header.specs.Header.{header_read};
ghost use Rattle.cfb_file.specs.Alike.{Alike};
ghost use Rattle.cfb_file.specs.Denotes.{Denotes, minis, root_of};
ghost use Rattle.std.specs.Prelude.{◌*◌, ◌+◌, ◌/◌, ◌≡◌, IfOk, List, Ok, length, map, ℕ};
ghost use Rattle.cfb_entries.specs.Tree.{Tree};
ghost use Rattle.read_streams.specs.Blocks.{held_at, held_in, stream_sectors};
ghost use Rattle.read_streams.specs.Chains.{IsFatOf, begins_at, walked};

use crate::chains::{follow, follow_minis, join, mini_places, number};
use cfb_header::header::Header;
use read_chains::difat::fat_sectors;
use read_chains::image::Image;
use read_chains::links::Links;
use read_chains::table::entries;
use read_outlines::outline::{Place, is_short};
use read_packed::places::Places;
use std::alloc::{AllocError, Global};

/// Which number of the directory, of four bytes each, is the first sector of the root's entry, and which is its size.
const FIRST: u32 = 29;

const SIZE: u32 = 30;

/// The blocks of a stream, one after another.
#[derive(Drop)]
pub enum Blocks {
    /// Sectors, by their numbers.
    Sectors(Vec<u32>),
    /// Mini sectors, by the places of the file at which they begin.
    Minis(Vec<usize>),
}

/// Where a stream lies: its blocks, and how many bytes it has.
#[derive(Drop)]
pub struct Lies {
    pub blocks: Blocks,
    pub size: usize,
}

/// How many sectors the bytes of a place take.
pub fn count_sectors(place: Place) -> usize
    ensures { result ≡ (place.size + 511) / 512 }
{
    (place.size as usize + 511) / 512
}

/// Where the mini stream lies, by the root's entry, which the directory's first sector has: in each file that has the
/// same bytes in the blocks that its listing needs, and denotes a tree.
pub fn root_place(alloc: Global, header: &Header, file: &Places) -> Result<Place, AllocError>
    requires read { header_read file.now ≡ Ok header.now }
    ensures first { IfOk result (λ p. (a : List ℕ) → Alike a file.now → (t : Tree) → (d : Denotes a t)
        → p.first ≡ first_of (root_of a d.layout)) }
    ensures size { IfOk result (λ p. (a : List ℕ) → Alike a file.now → (t : Tree) → (d : Denotes a t)
        → p.size ≡ size_of (root_of a d.layout)) }
{
    let front = join(alloc, file, &[header.first_directory()])?;
    let first = number(&front, FIRST);
    let size = number(&front, SIZE);
    Ok(Place { first, size })
}

/// The sectors of the mini stream, given the FAT's entries.
pub(crate) fn mini_stream_sectors(
    alloc: Global,
    header: &Header,
    file: &Places,
    table: &Links<'_>,
) -> Result<Vec<u32>, AllocError>
    requires read { header_read file.now ≡ Ok header.now }
    ensures found { IfOk result (λ v. (a : List ℕ) → Alike a file.now → (t : Tree) → (d : Denotes a t)
        → IsFatOf a d.layout table.now
        → v.items ≡ stream_sectors a d.layout) }
{
    let root = root_place(alloc, header, file)?;
    let sectors = follow(alloc, table, root.first, count_sectors(root))?;
    Ok(sectors)
}

/// The sectors of the mini FAT, given the FAT's entries.
fn mini_fat_sectors(
    alloc: Global,
    header: &Header,
    file: &Places,
    table: &Links<'_>,
) -> Result<Vec<u32>, AllocError>
    requires read { header_read file.now ≡ Ok header.now }
    ensures next { IfOk result (λ v. (a : List ℕ) → Alike a file.now → (t : Tree) → (d : Denotes a t)
        → IsFatOf a d.layout table.now
        → (λ (n : ℕ). u32_at (joined (sector file.now) v.items) (4 * n)) ≡ (minis a d.layout).next) }
{
    let count = header.mini_fat_count() as usize;
    let sectors = follow(alloc, table, header.first_mini_fat(), count)?;
    Ok(sectors)
}

/// The bytes of the mini FAT, given the FAT's entries.
pub(crate) fn mini_fat_bytes(
    alloc: Global,
    header: &Header,
    file: &Places,
    table: &Links<'_>,
) -> Result<Vec<u8>, AllocError>
    requires read { header_read file.now ≡ Ok header.now }
    ensures next { IfOk result (λ v. (a : List ℕ) → Alike a file.now → (t : Tree) → (d : Denotes a t)
        → IsFatOf a d.layout table.now
        → (λ (n : ℕ). u32_at v.items (4 * n)) ≡ (minis a d.layout).next) }
    ensures whole { IfOk result (λ v. (m : ℕ) × (length v.items ≡ 4 * m)) }
{
    let sectors = mini_fat_sectors(alloc, header, file, table)?;
    let bytes = join(alloc, file, &sectors)?;
    Ok(bytes)
}

/// So many mini sectors from one on, by the entries of a mini FAT that lies in these sectors. Where these stand one
/// after another in memory they are read there, and else joined first.
fn minis_by(
    alloc: Global,
    file: &Places,
    sectors: &[u32],
    first: u32,
    count: usize,
) -> Result<Vec<u32>, AllocError>
    ensures { IfOk result (λ v. v.items ≡ walked (λ n. u32_at (joined (sector file.now) sectors.now) (4 * n)) first
        count) }
{
    if let Some(bytes) = Image::Placed(file).run(sectors) {
        return follow_minis(alloc, bytes, first, count);
    }
    let bytes = join(alloc, file, sectors)?;
    follow_minis(alloc, &bytes, first, count)
}

/// How many mini sectors the bytes of a place take.
pub fn count_minis(place: Place) -> usize
    ensures { result ≡ (place.size + 63) / 64 }
{
    (place.size as usize + 63) / 64
}

/// Where the mini sectors of a stream begin in a file, given the FAT's entries.
fn short_blocks(
    alloc: Global,
    header: &Header,
    file: &Places,
    table: &Links<'_>,
    place: Place,
) -> Result<Vec<usize>, AllocError>
    requires read { header_read file.now ≡ Ok header.now }
    ensures found { IfOk result (λ v. (a : List ℕ) → Alike a file.now → (t : Tree) → (d : Denotes a t)
        → IsFatOf a d.layout table.now
        → v.items ≡ map (begins_at (stream_sectors a d.layout))
        (walked (minis a d.layout).next place.first ((place.size + 63) / 64))) }
{
    let mini_stream = mini_stream_sectors(alloc, header, file, table)?;
    let mini_fat = mini_fat_sectors(alloc, header, file, table)?;
    let minis = minis_by(alloc, file, &mini_fat, place.first, count_minis(place))?;
    let places = mini_places(alloc, &mini_stream, &minis)?;
    Ok(places)
}

/// The FAT's entries of a file of which the blocks were read that its listing needs, where they stand: those of each
/// file that has the same bytes in those blocks.
fn fat_links<'a>(alloc: Global, header: &Header, file: &'a Places) -> Result<Links<'a>, AllocError>
    requires read { header_read file.now ≡ Ok header.now }
    ensures fat { IfOk result (λ l. (a : List ℕ) → Alike a file.now → (t : Tree) → (d : Denotes a t)
        → IsFatOf a d.layout l) }
{
    let image = Image::Placed(file);
    let own = fat_sectors(alloc, header, &image)?;
    let links = Links::read(alloc, &image, &own.fat)?;
    Ok(links)
}

/// The same as numbers, which outlive the file.
pub(crate) fn fat_entries(
    alloc: Global,
    header: &Header,
    file: &Places,
) -> Result<Vec<u32>, AllocError>
    requires read { header_read file.now ≡ Ok header.now }
    ensures fat { IfOk result (λ v. (a : List ℕ) → Alike a file.now → (t : Tree) → (d : Denotes a t)
        → IsFatOf a d.layout v.items) }
{
    let image = Image::Placed(file);
    let own = fat_sectors(alloc, header, &image)?;
    let table = entries(alloc, &image, &own.fat)?;
    Ok(table)
}

/// The blocks of the stream that an outline says lies at a place, of a file of which the blocks were read that its
/// listing needs: in each file that has the same bytes in those blocks, and denotes a tree, they are the blocks that
/// lie there.
pub fn blocks_at(
    alloc: Global,
    header: &Header,
    file: &Places,
    place: Place,
) -> Result<Lies, AllocError>
    requires read { header_read file.now ≡ Ok header.now }
    ensures lies { IfOk result (λ lies. (a : List ℕ) → Alike a file.now → (t : Tree) → (d : Denotes a t)
        → held_in a lies ≡ held_at a d.layout place) }
{
    let table = fat_links(alloc, header, file)?;
    let size = place.size as usize;
    if is_short(place) {
        let places = short_blocks(alloc, header, file, &table, place)?;
        return Ok(Lies {
            blocks: Blocks::Minis(places),
            size,
        });
    }
    let sectors = follow(alloc, &table, place.first, count_sectors(place))?;
    Ok(Lies {
        blocks: Blocks::Sectors(sectors),
        size,
    })
}
