//! A commit's journal is written behind its closed gate.

ghost use Rattle.store_model.specs.Changes.{block_count, changes, changes_from, head_of, journal_from, spelled};
ghost use Rattle.store_model.specs.Crash.{Counts, Only, StaysIn};
ghost use Rattle.store_model.specs.Image.{changed, put};
ghost use Rattle.store_model.specs.Store.{Rests};
ghost use Rattle.store_model.specs.declared.area.Area.TheVariants.{Journal};
ghost use Rattle.store_model.specs.declared.limit.TheConstants.{MAX_DOCUMENT};
ghost use Rattle.store_core.specs.Steps.{CanStage, IsStaging};
ghost use Rattle.std.specs.Prelude.{◌≡◌, ◌<◌, ◌≤◌, ◌+◌, ◌-◌, ◌*◌, ◌++◌, IfOk, OnOk, get_or, length, take, drop};
ghost use Rattle.std.specs.Int.{to_le_bytes, w32};

use crate::calls::{cut_behind, length_of, read_into, sync_area, write_behind};
use crate::compare::{WINDOW, WINDOW_BLOCKS, WINDOW_ENTRIES, compare};
use store_model::area::Area;
use store_model::disk::{Disk, DiskFailure};
use store_model::journal::{BLOCKS, ENTRY, FIRST_BLOCK, HEADER};

/// Writes into the journal, behind its closed gate, the blocks of a document that differ from the document area's, and
/// makes it last. Gives how many these are.
pub(crate) fn stage<D: Disk>(disk: &mut D, document: &[u8]) -> Result<u32, DiskFailure>
    requires rests { D.follows_model → Rests D.reads D.may_leave disk.old }
    requires small { length document.now ≤ MAX_DOCUMENT }
    ensures staged { D.follows_model
        → IfOk result (λ _. D.reads disk.new ≡ changed Journal
        (journal_from (get_or (D.reads disk.old).journal 0 0) (D.reads disk.old).document document.now)
        (D.reads disk.old)) }
    ensures blocks { D.follows_model
        → IfOk result (λ n. n ≡ length (changes (D.reads disk.old).document document.now)) }
    ensures durable { D.follows_model → IfOk result (λ _. Only (D.reads disk.new) (D.may_leave disk.new)) }
    ensures stays { D.follows_model → StaysIn D.may_leave D.moment D.left_since disk.old disk.new
        (IsStaging (D.reads disk.old)) }
    ensures count { Counts (D.failed disk.old) (D.failed disk.new) result }
{
    begin_journal(disk, document.len() as u64)?;
    let count = write_changes(disk, document)?;
    end_journal(disk, count)?;
    sync_area(disk, Area::Journal)?;
    Ok(count)
}

/// Writes the length, the form and that there are no blocks yet.
fn begin_journal<D: Disk>(disk: &mut D, size: u64) -> Result<(), DiskFailure>
    requires closed { D.follows_model → CanStage D.reads D.may_leave disk.old }
    requires there { D.follows_model → 1 ≤ length (D.reads disk.old).journal }
    requires small { size ≤ MAX_DOCUMENT }
    ensures written { D.follows_model
        → OnOk result (take 13 (D.reads disk.new).journal ≡ head_of (get_or (D.reads disk.old).journal 0 0) size
        0) }
    ensures stays { D.follows_model → StaysIn D.may_leave D.moment D.left_since disk.old disk.new
        (IsStaging (D.reads disk.old)) }
    ensures count { Counts (D.failed disk.old) (D.failed disk.new) result }
{
    write_behind(disk, 1, &size.to_le_bytes())?;
    write_behind(disk, 8, &[BLOCKS])?;
    write_behind(disk, HEADER, &[0, 0, 0, 0])
}

/// Writes the blocks of a document that differ from the document area's behind the head of a journal, a window at a
/// time. Gives how many these are.
fn write_changes<D: Disk>(disk: &mut D, document: &[u8]) -> Result<u32, DiskFailure>
    requires closed { D.follows_model → CanStage D.reads D.may_leave disk.old }
    requires there { D.follows_model → 13 ≤ length (D.reads disk.old).journal }
    requires small { length document.now ≤ MAX_DOCUMENT }
    ensures written { D.follows_model → IfOk result (λ n. take (13 + 516 * n) (D.reads disk.new).journal
        ≡ take 13 (D.reads disk.old).journal ++ spelled (changes (D.reads disk.old).document document.now)) }
    ensures blocks { D.follows_model
        → IfOk result (λ n. n ≡ length (changes (D.reads disk.old).document document.now)) }
    ensures stays { D.follows_model → StaysIn D.may_leave D.moment D.left_since disk.old disk.new
        (IsStaging (D.reads disk.old)) }
    ensures count { Counts (D.failed disk.old) (D.failed disk.new) result }
{
    let end = length_of(disk, Area::Document)?;
    let blocks = (document.len() + 511) / 512;
    let mut held = [0u8; WINDOW];
    let mut out = [0u8; WINDOW_ENTRIES];
    let mut first = 0usize;
    let mut count = 0u32;
    while first < blocks {
        let last = blocks.min(first + WINDOW_BLOCKS);
        let long = end.saturating_sub(512 * first as u64).min(WINDOW as u64) as usize;
        let more = write_window(
            disk,
            document,
            (first, last),
            count,
            &mut held[..long],
            &mut out,
        )?;
        first = last;
        count += more;
    }
    Ok(count)
}

/// Writes the blocks of one window, from the first to before the last, behind the blocks that are there already.
fn write_window<D: Disk>(
    disk: &mut D,
    document: &[u8],
    range: (usize, usize),
    count: u32,
    held: &mut [u8],
    out: &mut [u8],
) -> Result<u32, DiskFailure>
    requires closed { D.follows_model → CanStage D.reads D.may_leave disk.old }
    requires small { length document.now ≤ MAX_DOCUMENT }
    requires range { range.0 ≤ range.1 }
    requires there { 512 * range.1 < length document.now + 512 }
    requires few { range.1 ≤ range.0 + WINDOW_BLOCKS }
    requires so_far { count ≤ range.0 }
    requires room { WINDOW_ENTRIES ≤ length out.old }
    requires within { D.follows_model → 0 < length held.old → 512 * range.0 + length held.old
        ≤ length (D.reads disk.old).document }
    requires held { D.follows_model → take (length held.old) (drop (512 * range.0) (D.reads disk.old).document)
        ≡ take WINDOW (drop (512 * range.0) (D.reads disk.old).document) }
    requires behind { D.follows_model → 13 + 516 * count ≤ length (D.reads disk.old).journal }
    ensures written { D.follows_model → IfOk result (λ n. D.reads disk.new ≡ changed Journal
        (put (D.reads disk.old).journal (13 + 516 * count)
        (spelled (changes_from range.0 (range.1 - range.0) (D.reads disk.old).document document.now)))
        (D.reads disk.old)) }
    ensures blocks { D.follows_model
        → IfOk result
        (λ n. n ≡ length (changes_from range.0 (range.1 - range.0) (D.reads disk.old).document document.now)) }
    ensures few { IfOk result (λ n. n ≤ range.1 - range.0) }
    ensures stays { D.follows_model → StaysIn D.may_leave D.moment D.left_since disk.old disk.new
        (IsStaging (D.reads disk.old)) }
    ensures count { Counts (D.failed disk.old) (D.failed disk.new) result }
    ensures held { length held.new ≡ length held.old }
    ensures out { length out.new ≡ length out.old }
{
    let (first, last) = range;
    read_into(disk, Area::Document, 512 * first as u64, held)?;
    let more = compare(held, document, first, last, out);
    write_behind(
        disk,
        FIRST_BLOCK + ENTRY * u64::from(count),
        &out[..516 * more],
    )?;
    Ok(more as u32)
}

/// Writes how many blocks there are, and cuts the journal behind them.
fn end_journal<D: Disk>(disk: &mut D, count: u32) -> Result<(), DiskFailure>
    requires closed { D.follows_model → CanStage D.reads D.may_leave disk.old }
    requires there { D.follows_model → 13 + 516 * count ≤ length (D.reads disk.old).journal }
    ensures written { D.follows_model
        → OnOk result (D.reads disk.new ≡ changed Journal
        (take (13 + 516 * count) (put (D.reads disk.old).journal 9 (to_le_bytes w32 count))) (D.reads disk.old)) }
    ensures stays { D.follows_model → StaysIn D.may_leave D.moment D.left_since disk.old disk.new
        (IsStaging (D.reads disk.old)) }
    ensures count { Counts (D.failed disk.old) (D.failed disk.new) result }
{
    write_behind(disk, HEADER, &count.to_le_bytes())?;
    cut_behind(disk, FIRST_BLOCK + ENTRY * u64::from(count))
}
