//! The map of a compound file.

ghost use Rattle.cfb_entries.specs.Tree.{Tree};
ghost use Rattle.cfb_file.specs.Alike.{Alike};
ghost use Rattle.cfb_file.specs.Denotes.{Denotes, directory_of};
ghost use Rattle.cfb_header.specs.Header.{header_read};
ghost use Rattle.read_outlines.specs.Places.{IsTold};
ghost use Rattle.read_outlines.specs.View.{outline_view};
ghost use Rattle.tell_maps.specs.Maps as maps;
ghost use Rattle.tell_maps.specs.Maps.{cells, mapped};
ghost use Rattle.std.specs.Prelude.{◌++◌, ◌<◌, ◌≡◌, ◌^◌, IfOk, List, Ok, OnOk, length, replicate, ℕ};

use crate::painting::{
    BEYOND, DIFAT, DIRECTORY, FAT, FREE, MINI_FAT, MINI_STREAM, paint, paint_stream,
};
use crate::parts::parts_of;
use crate::sizes::total;
use crate::telling::tell;
use cfb_header::header::Header;
use read_chains::difat::fat_sectors;
use read_chains::image::Image;
use read_chains::links::Links;
use read_outlines::outline::Outline;
use read_packed::places::Places;
use std::alloc::{AllocError, Global};

/// The map of a compound file of this outline, of which the blocks were read that its listing needs: its sectors in
/// rows of 64, a character each, what the characters stand for and how often each stands there, and how many bytes are
/// free, behind the ends of streams, and past the FAT.
///
/// It is the map of each file that has the same bytes in those blocks, and denotes a tree of which the outline tells.
/// Of any other file nothing is promised.
pub fn map_of(
    alloc: Global,
    header: &Header,
    file: &Places,
    outline: &Outline,
) -> Result<Vec<u8>, AllocError>
    requires read { header_read file.now ≡ Ok header.now }
    ensures mapped { IfOk result (λ v. (a : List ℕ) → Alike a file.now → (t : Tree) → (d : Denotes a t)
        → IsTold (directory_of a d.layout) 0 outline.now
        → v.items ≡ mapped a d.layout d.used.sectors (outline_view outline.now)) }
{
    let cells = cells_of(alloc, header, file, outline)?;
    let text = tell(alloc, &cells, total(outline))?;
    Ok(text)
}

/// A character for each sector that begins before the end of a file of this outline.
fn cells_of(
    alloc: Global,
    header: &Header,
    file: &Places,
    outline: &Outline,
) -> Result<Vec<u8>, AllocError>
    requires read { header_read file.now ≡ Ok header.now }
    ensures few { IfOk result (λ v. length v.items < 2 ^ 55) }
    ensures painted { IfOk result (λ v. (a : List ℕ) → Alike a file.now → (t : Tree) → (d : Denotes a t)
        → IsTold (directory_of a d.layout) 0 outline.now
        → v.items ≡ cells a d.layout d.used.sectors) }
{
    let image = Image::Placed(file);
    let own = fat_sectors(alloc, header, &image)?;
    let table = Links::read(alloc, &image, &own.fat)?;
    let parts = parts_of(alloc, header, file, &table, outline)?;
    let mut cells = vec![in alloc; FREE; table.len()]?;
    paint(&mut cells, &own.fat, FAT);
    paint(&mut cells, &own.difat, DIFAT);
    paint(&mut cells, &parts.mini_fat, MINI_FAT);
    paint(&mut cells, &parts.directory, DIRECTORY);
    paint(&mut cells, &parts.mini_stream, MINI_STREAM);
    paint_stream(&mut cells, &table, &parts.streams);
    push_beyond(
        &mut cells,
        (file.len().saturating_sub(1) / 512).saturating_sub(table.len()),
    )?;
    Ok(cells)
}

/// Adds so many sectors that have no entry in the FAT.
fn push_beyond(cells: &mut Vec<u8>, count: usize) -> Result<(), AllocError>
    requires { count < 2 ^ 55 }
    ensures { OnOk result (cells.new.items ≡ cells.old.items ++ replicate count maps.BEYOND) }
{
    let end = cells.len() + count;
    cells.resize(end, BEYOND)?;
    Ok(())
}
