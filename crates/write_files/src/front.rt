//! What stands before the streams in the file of a tree: its header, its tables and its directory.

ghost use Rattle.std.specs.Prelude.{◌≡◌, IfOk};
ghost use Rattle.write_parts.specs.Counted.{AreEnough};
ghost use Rattle.write_parts.specs.Filled.{fat_numbers, mini_numbers};
ghost use Rattle.write_parts.specs.Front.{IsFront};
ghost use Rattle.write_parts.specs.Leads.{IsDirectory};

use crate::entries::directory_of;
use crate::walks::Branch;
use std::alloc::{AllocError, Global};
use write_parts::counts::Counts;
use write_parts::front::{Front, difat_table, push_header};
use write_parts::leads::Directory;
use write_parts::pieces::ROOM;
use write_parts::tables::{Tables, fill_table, tables_for};

/// The tables of the file of a tree with these counts, and its directory, of one walk over the tree.
fn parts_for<B: Branch>(
    alloc: Global,
    root: B,
    counts: Counts,
) -> Result<(Tables, Directory), AllocError>
    requires { AreEnough counts (B.tree root) }
    ensures fat { IfOk result (λ parts. parts.0.fat.items ≡ fat_numbers counts.fat (B.tree root)) }
    ensures minis { IfOk result (λ parts. parts.0.minis.items ≡ mini_numbers (B.tree root)) }
    ensures directory { IfOk result (λ parts. IsDirectory parts.1 counts.fat (B.tree root)) }
{
    let mut tables = tables_for(alloc, counts)?;
    let directory = directory_of(alloc, &mut tables, root, counts)?;
    fill_table(&mut tables.fat, counts.fat)?;
    fill_table(&mut tables.minis, counts.mini_fat_sectors())?;
    Ok((tables, directory))
}

/// The front of the file of a tree with these counts. All memory that its file takes is taken here: behind the header
/// is room for what waits to be written.
pub fn front_of<B: Branch>(alloc: Global, root: B, counts: Counts) -> Result<Front, AllocError>
    requires { AreEnough counts (B.tree root) }
    ensures { IfOk result (λ front. IsFront front counts.fat (B.tree root)) }
{
    let difat_count = counts.difat_sectors();
    let (tables, directory) = parts_for(alloc, root, counts)?;
    let difat = difat_table(alloc, counts.fat, difat_count)?;
    let mut header = Vec::with_capacity(alloc, counts.file_len().min(ROOM))?;
    push_header(
        alloc,
        &mut header,
        counts.fat,
        difat_count,
        counts.directory_sectors(),
        counts.mini_fat_sectors(),
    )?;
    Ok(Front {
        header,
        tables,
        difat,
        directory,
    })
}
