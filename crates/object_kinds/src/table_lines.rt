//! Lines of a table's stream and picture.

ghost use Rattle.object_core.specs.Content.{cell_bytes, stream_bytes, table};
ghost use Rattle.object_core.specs.Pictures.{picture_bytes};
ghost use Rattle.object_kinds.specs.Listed.{line_with};
ghost use Rattle.object_kinds.specs.Placed.{cell_at, entries_at};
ghost use Rattle.std.specs.Fmt.{decimal};
ghost use Rattle.std.specs.Prelude.{◌++◌, ◌≡◌, IfOk, OnOk};

use crate::cell_name::COLUMNS;
use std::alloc::{AllocError, Global};
use std::collections::BTreeMap;

/// How many cells a picture shows.
const PICTURE_LINES: usize = 20;

/// Puts a decimal number to the end.
fn push_number(out: &mut Vec<u8>, number: u16) -> Result<(), AllocError>
    ensures { OnOk result (out.new.items ≡ out.old.items ++ decimal number) }
{
    if number >= 10 {
        push_number(out, number / 10)?;
    }
    out.push(b'0' + (number % 10) as u8)?;
    Ok(())
}

/// Puts the name of the cell at a place to the end.
fn push_cell(out: &mut Vec<u8>, place: u16) -> Result<(), AllocError>
    ensures { OnOk result (out.new.items ≡ out.old.items ++ cell_bytes (cell_at place)) }
{
    out.push(b'A' + (place % COLUMNS) as u8)?;
    push_number(out, place / COLUMNS)?;
    Ok(())
}

/// Puts a line to the end: the cell at a place, a byte behind it, and a text.
///
/// Refused for want of memory alone. A part of the line may then have come to the end.
fn push_line(out: &mut Vec<u8>, place: u16, between: u8, text: &[u8]) -> Result<(), AllocError>
    ensures { OnOk result (out.new.items ≡ out.old.items ++ line_with between (cell_at place) text.now) }
{
    push_cell(out, place)?;
    out.push(between)?;
    out.extend_from_slice(text)?;
    out.push(b'\n')?;
    Ok(())
}

/// The bytes of a table's stream: a line for each cell that has a text, by row and then by column.
///
/// Refused for want of memory alone.
pub fn stream(alloc: Global, cells: &BTreeMap<u16, Vec<u8>>) -> Result<Vec<u8>, AllocError>
    ensures { IfOk result (λ v. v.items ≡ stream_bytes (table (entries_at cells.now.entries))) }
{
    let mut bytes = Vec::new(alloc);
    for (place, text) in cells.iter() {
        push_line(&mut bytes, *place, b' ', text)?;
    }
    Ok(bytes)
}

/// The lines of a table's picture.
///
/// Refused for want of memory alone.
pub fn picture(alloc: Global, cells: &BTreeMap<u16, Vec<u8>>) -> Result<Vec<u8>, AllocError>
    ensures { IfOk result (λ v. v.items ≡ picture_bytes (table (entries_at cells.now.entries))) }
{
    let mut lines = Vec::new(alloc);
    let mut left = cells.iter();
    for _ in 0..PICTURE_LINES {
        match left.next() {
            Some((place, text)) => push_line(&mut lines, *place, b'=', text)?,
            None => break,
        }
    }
    Ok(lines)
}
