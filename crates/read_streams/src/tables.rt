//! The tables by which the streams of a file are found, read once for all of them.

ghost use Rattle.cfb_header.specs.Bytes.{u32_at};
ghost use Rattle.cfb_header.specs.Header.{header_read};
ghost use Rattle.cfb_file.specs.Alike.{Alike};
ghost use Rattle.cfb_file.specs.Denotes.{Denotes, minis};
ghost use Rattle.std.specs.Prelude.{◌*◌, ◌≡◌, IfOk, List, Ok, length, ℕ};
ghost use Rattle.cfb_entries.specs.Tree.{Tree};
ghost use Rattle.read_streams.specs.Blocks.{stream_sectors};
ghost use Rattle.read_streams.specs.Chains.{IsFatOf};
ghost use Rattle.read_streams.specs.Tables.{AreTablesOf};

use crate::blocks::{fat_entries, mini_fat_bytes, mini_stream_sectors};
use cfb_header::header::Header;
use read_chains::links::Links;
use read_packed::places::Places;
use std::alloc::{AllocError, Global};

/// What finds the streams of a file.
#[derive(Drop)]
pub struct Tables {
    /// The FAT's entries.
    pub fat: Vec<u32>,
    /// The bytes of the mini FAT.
    pub mini_fat: Vec<u8>,
    /// The sectors of the mini stream.
    pub mini_stream: Vec<u32>,
    /// How many bytes the file has.
    pub len: usize,
}

/// The bytes of the mini FAT and the sectors of the mini stream, given the FAT's entries.
fn minis_of(
    alloc: Global,
    header: &Header,
    file: &Places,
    fat: &[u32],
) -> Result<(Vec<u8>, Vec<u32>), AllocError>
    requires read { header_read file.now ≡ Ok header.now }
    ensures next { IfOk result (λ r. (a : List ℕ) → Alike a file.now → (t : Tree) → (d : Denotes a t)
        → IsFatOf a d.layout fat.now
        → (λ (n : ℕ). u32_at r.0.items (4 * n)) ≡ (minis a d.layout).next) }
    ensures whole { IfOk result (λ r. (m : ℕ) × (length r.0.items ≡ 4 * m)) }
    ensures stream { IfOk result (λ r. (a : List ℕ) → Alike a file.now → (t : Tree) → (d : Denotes a t)
        → IsFatOf a d.layout fat.now
        → r.1.items ≡ stream_sectors a d.layout) }
{
    let links = Links::lent(fat);
    let mini_fat = mini_fat_bytes(alloc, header, file, &links)?;
    let mini_stream = mini_stream_sectors(alloc, header, file, &links)?;
    Ok((mini_fat, mini_stream))
}

/// The tables of a file, given its header and of its bytes those that its listing needs: of each file that has the same
/// bytes there, and denotes a tree.
pub fn tables_of(alloc: Global, header: &Header, file: &Places) -> Result<Tables, AllocError>
    requires read { header_read file.now ≡ Ok header.now }
    ensures tables { IfOk result (λ tables. (a : List ℕ) → Alike a file.now → (t : Tree) → (d : Denotes a t)
        → AreTablesOf a d.layout tables) }
    ensures whole { IfOk result (λ tables. (m : ℕ) × (length tables.mini_fat.items ≡ 4 * m)) }
    ensures len { IfOk result (λ tables. tables.len ≡ length file.now) }
{
    let fat = fat_entries(alloc, header, file)?;
    let (mini_fat, mini_stream) = minis_of(alloc, header, file, &fat)?;
    Ok(Tables {
        fat,
        mini_fat,
        mini_stream,
        len: file.len(),
    })
}
