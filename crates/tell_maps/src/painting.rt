//! Sectors painted with characters.

ghost use Rattle.tell_maps.specs.Maps as maps;
ghost use Rattle.tell_maps.specs.Painting.{Paints};
ghost use Rattle.cfb_chains.specs.Chain.{END_OF_CHAIN};
ghost use Rattle.std.specs.Prelude.{◌<◌, ◌≡◌, cond, length, nat_eq, slice_index, ℕ};

use cfb_header::header::END_OF_CHAIN;
use read_chains::links::Links;

/// The characters.
pub(crate) const FAT: u8 = b'F';

pub(crate) const DIFAT: u8 = b'X';

pub(crate) const DIRECTORY: u8 = b'D';

pub(crate) const MINI_FAT: u8 = b'M';

pub(crate) const MINI_STREAM: u8 = b'm';

pub(crate) const STREAM: u8 = b's';

pub(crate) const LAST: u8 = b'e';

pub(crate) const FREE: u8 = b'.';

pub(crate) const BEYOND: u8 = b'-';

/// Paints one sector, if it is there.
#[tactic(auto, using(crate::proofs::Cells::put_by, crate::proofs::Cells::put_past))]
fn put(cells: &mut Vec<u8>, n: u32, mark: u8)
    ensures len { length cells.new.items ≡ length cells.old.items }
    ensures each { (k : ℕ) → k < length cells.old.items → slice_index cells.new.items k
        ≡ cond (nat_eq n k) mark (slice_index cells.old.items k) }
{
    let at = n as usize;
    if at < cells.len() {
        cells[at] = mark;
    }
}

/// Paints sectors with one character.
pub(crate) fn paint(cells: &mut Vec<u8>, sectors: &[u32], mark: u8)
    ensures len { length cells.new.items ≡ length cells.old.items }
    ensures each { Paints (λ _. mark) sectors.now cells.old.items cells.new.items }
{
    for n in sectors {
        put(cells, *n, mark);
    }
}

/// The character of a sector of a stream, by its entry in the FAT.
fn mark_of(next: u32) -> u8
    ensures { result ≡ cond (nat_eq next END_OF_CHAIN) maps.LAST maps.STREAM }
{
    if next == END_OF_CHAIN { LAST } else { STREAM }
}

/// Paints a sector of a stream.
fn put_stream(cells: &mut Vec<u8>, table: &Links<'_>, n: u32)
    requires same { length table.now ≡ length cells.old.items }
    ensures len { length cells.new.items ≡ length cells.old.items }
    ensures each { (k : ℕ) → k < length cells.old.items → slice_index cells.new.items k
        ≡ cond (nat_eq n k) (cond (nat_eq (slice_index table.now k) END_OF_CHAIN) maps.LAST maps.STREAM)
        (slice_index cells.old.items k) }
{
    let at = n as usize;
    if at < table.len() {
        cells[at] = mark_of(table.entry(at));
    }
}

/// Paints sectors of streams, each by its entry in the FAT.
pub(crate) fn paint_stream(cells: &mut Vec<u8>, table: &Links<'_>, sectors: &[u32])
    requires same { length table.now ≡ length cells.old.items }
    ensures len { length cells.new.items ≡ length cells.old.items }
    ensures each { Paints (λ n. cond (nat_eq (slice_index table.now n) END_OF_CHAIN) maps.LAST maps.STREAM)
        sectors.now cells.old.items cells.new.items }
{
    for n in sectors {
        put_stream(cells, table, *n);
    }
}
