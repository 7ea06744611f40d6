//! The text of a map.

ghost use Rattle.tell_maps.specs.Maps.{behind, count_of, counted, legend, map_text, right_text, row, rows, said};
ghost use Rattle.tell_maps.specs.Maps.{stream_legend, system_legend, table, totals, unused_legend};
ghost use Rattle.std.specs.Prelude.{◌*◌, ◌+◌, ◌++◌, ◌<◌, ◌^◌, ◌≡◌, ◌≤◌, IfOk, OnOk, length, replicate, slice_index, ℕ};

use crate::painting::{BEYOND, DIFAT, DIRECTORY, FAT, FREE, LAST, MINI_FAT, MINI_STREAM, STREAM};
use std::alloc::{AllocError, Global};
use std::marker::Model;

/// How many columns a number takes.
const COLUMNS: usize = 10;

/// How many sectors a row has.
const WIDTH: usize = 64;

/// Writes a number behind words.
fn push_said(
    alloc: Global,
    text: &mut Vec<u8>,
    words: &[u8],
    number: usize,
) -> Result<(), AllocError>
    ensures { OnOk result (text.new.items ≡ text.old.items ++ said words.now number) }
{
    let digits = number.to_string(alloc)?;
    text.extend_from_slice(words)?;
    text.extend_from_slice(digits.as_bytes())?;
    Ok(())
}

/// Writes a number at the right of its columns.
fn push_right(alloc: Global, text: &mut Vec<u8>, number: usize) -> Result<(), AllocError>
    ensures { OnOk result (text.new.items ≡ text.old.items ++ right_text number) }
{
    let digits = number.to_string(alloc)?;
    let end = text.len() + COLUMNS.saturating_sub(digits.len());
    text.resize(end, b' ')?;
    text.extend_from_slice(digits.as_bytes())?;
    Ok(())
}

/// Writes a row of sectors.
fn push_row(alloc: Global, text: &mut Vec<u8>, cells: &[u8], k: usize) -> Result<(), AllocError>
    requires { 64 * k ≤ length cells.now }
    ensures { OnOk result (text.new.items ≡ text.old.items ++ row cells.now k) }
{
    push_right(alloc, text, WIDTH * k)?;
    text.extend_from_slice(b"  ".as_slice())?;
    let rest = &cells[WIDTH * k..];
    text.extend_from_slice(&rest[..WIDTH.min(rest.len())])?;
    text.push(b'\n')?;
    Ok(())
}

/// Writes all rows.
fn push_rows(alloc: Global, text: &mut Vec<u8>, cells: &[u8]) -> Result<(), AllocError>
    requires { length cells.now < 2 ^ 55 }
    ensures { OnOk result (text.new.items ≡ text.old.items ++ rows cells.now) }
{
    for k in 0..(cells.len() + 63) / 64 {
        push_row(alloc, text, cells, k)?;
    }
    Ok(())
}

/// Sectors, of which it is known how many have each character.
#[derive(Drop)]
struct Tally<'a> {
    cells: &'a [u8],
    counts: [usize; 256],
}

impl<'a> Model for Tally<'a> {
    ghost use Rattle.std.specs.Prelude.{◌<◌, ◌≡◌, List, slice_index, ℕ};
    ghost use Rattle.tell_maps.specs.Maps.{count_of};

    ghost Value = { List ℕ };

    ghost view = { λ t. t.cells.now };

    ghost invariant = { λ t. (c : ℕ) → c < 256 → slice_index t.counts c ≡ count_of c t.cells.now };
}

impl<'a> Tally<'a> {
    /// Counts the characters of sectors, each sector once.
    fn new(cells: &'a [u8]) -> Tally<'a>
        ensures { result ≡ cells.now }
    {
        let counts = counts_of(cells);
        Tally { cells, counts }
    }

    /// How many sectors have a character.
    fn count(&self, mark: u8) -> usize
        ensures count { result ≡ count_of mark self.now }
        ensures few { result ≤ length self.now }
    {
        self.counts[mark as usize]
    }
}

/// Nothing counted yet.
fn no_counts() -> [usize; 256]
    ensures { result ≡ replicate 256 0 }
{
    [0; 256]
}

/// How many sectors have each character.
fn counts_of(cells: &[u8]) -> [usize; 256]
    ensures { (c : ℕ) → c < 256 → slice_index result c ≡ count_of c cells.now }
{
    let mut counts = no_counts();
    for cell in cells {
        let mark = *cell as usize;
        counts[mark] += 1;
    }
    counts
}

/// Writes how many sectors have a character.
fn push_count(
    alloc: Global,
    text: &mut Vec<u8>,
    words: &[u8],
    tally: &Tally<'_>,
    mark: u8,
) -> Result<(), AllocError>
    ensures { OnOk result (text.new.items ≡ text.old.items ++ counted words.now tally.now mark) }
{
    text.extend_from_slice(words)?;
    push_right(alloc, text, tally.count(mark))?;
    text.push(b'\n')?;
    Ok(())
}

/// Writes what the characters stand for, and how often each stands in the map: the system's own parts.
fn push_system(alloc: Global, text: &mut Vec<u8>, tally: &Tally<'_>) -> Result<(), AllocError>
    ensures { OnOk result (text.new.items ≡ text.old.items ++ system_legend tally.now) }
{
    push_count(
        alloc,
        text,
        b"F  FAT                 ".as_slice(),
        tally,
        FAT,
    )?;
    push_count(
        alloc,
        text,
        b"X  DIFAT               ".as_slice(),
        tally,
        DIFAT,
    )?;
    push_count(
        alloc,
        text,
        b"D  directory           ".as_slice(),
        tally,
        DIRECTORY,
    )?;
    push_count(
        alloc,
        text,
        b"M  mini FAT            ".as_slice(),
        tally,
        MINI_FAT,
    )
}

/// The same of streams.
fn push_streams(alloc: Global, text: &mut Vec<u8>, tally: &Tally<'_>) -> Result<(), AllocError>
    ensures { OnOk result (text.new.items ≡ text.old.items ++ stream_legend tally.now) }
{
    push_count(
        alloc,
        text,
        b"m  mini stream         ".as_slice(),
        tally,
        MINI_STREAM,
    )?;
    push_count(
        alloc,
        text,
        b"s  streams             ".as_slice(),
        tally,
        STREAM,
    )?;
    push_count(
        alloc,
        text,
        b"e  ends of streams     ".as_slice(),
        tally,
        LAST,
    )
}

/// The same of what isn't used.
fn push_unused(alloc: Global, text: &mut Vec<u8>, tally: &Tally<'_>) -> Result<(), AllocError>
    ensures { OnOk result (text.new.items ≡ text.old.items ++ unused_legend tally.now) }
{
    push_count(
        alloc,
        text,
        b".  free                ".as_slice(),
        tally,
        FREE,
    )?;
    push_count(
        alloc,
        text,
        b"-  past the FAT        ".as_slice(),
        tally,
        BEYOND,
    )
}

/// How many bytes in the sectors of streams and of the mini stream are no stream's, where those have so many together.
fn count_behind(tally: &Tally<'_>, bytes: u64) -> usize
    requires { length tally.now < 2 ^ 55 }
    ensures { result ≡ behind tally.now bytes }
{
    let sectors = tally.count(STREAM) + tally.count(LAST) + tally.count(MINI_STREAM);
    (512 * sectors).saturating_sub(bytes as usize)
}

/// Writes how many bytes are free, behind the ends of streams, and past the FAT.
fn push_totals(
    alloc: Global,
    text: &mut Vec<u8>,
    tally: &Tally<'_>,
    bytes: u64,
) -> Result<(), AllocError>
    requires { length tally.now < 2 ^ 55 }
    ensures { OnOk result (text.new.items ≡ text.old.items ++ totals tally.now bytes) }
{
    push_said(
        alloc,
        text,
        b"bytes free ".as_slice(),
        512 * tally.count(FREE),
    )?;
    push_said(
        alloc,
        text,
        b", behind the ends of streams ".as_slice(),
        count_behind(tally, bytes),
    )?;
    push_said(
        alloc,
        text,
        b", past the FAT ".as_slice(),
        512 * tally.count(BEYOND),
    )?;
    text.push(b'\n')?;
    Ok(())
}

/// Writes all rows and an empty line.
fn push_table(alloc: Global, text: &mut Vec<u8>, cells: &[u8]) -> Result<(), AllocError>
    requires { length cells.now < 2 ^ 55 }
    ensures { OnOk result (text.new.items ≡ text.old.items ++ table cells.now) }
{
    push_rows(alloc, text, cells)?;
    text.push(b'\n')?;
    Ok(())
}

/// Writes the legend and an empty line.
fn push_legend(alloc: Global, text: &mut Vec<u8>, tally: &Tally<'_>) -> Result<(), AllocError>
    ensures { OnOk result (text.new.items ≡ text.old.items ++ legend tally.now) }
{
    push_system(alloc, text, tally)?;
    push_streams(alloc, text, tally)?;
    push_unused(alloc, text, tally)?;
    text.push(b'\n')?;
    Ok(())
}

/// The text of a map of these sectors, whose streams have so many bytes together.
pub(crate) fn tell(alloc: Global, cells: &[u8], bytes: u64) -> Result<Vec<u8>, AllocError>
    requires { length cells.now < 2 ^ 55 }
    ensures { IfOk result (λ v. v.items ≡ map_text cells.now bytes) }
{
    let tally = Tally::new(cells);
    let mut text = Vec::new(alloc);
    push_table(alloc, &mut text, cells)?;
    push_legend(alloc, &mut text, &tally)?;
    push_totals(alloc, &mut text, &tally, bytes)?;
    Ok(text)
}
