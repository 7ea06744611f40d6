//! The document area becomes what an open journal tells.

ghost use Rattle.store_model.specs.Crash.{Counts, Only, StaysIn};
ghost use Rattle.store_model.specs.Image.{changed, put};
ghost use Rattle.store_model.specs.Journal.{block_at, blocks_from, changed_document, count_in, form_in};
ghost use Rattle.store_model.specs.Patches.{Follow, joined};
ghost use Rattle.store_model.specs.declared.area.Area.TheVariants.{Document};
ghost use Rattle.store_core.specs.declared.found.Change.TheVariants.{Blocks, Whole};
ghost use Rattle.store_core.specs.Steps.{CanInstall, HoldsChange, IsInstalling, IsOpenWith, new_size};
ghost use Rattle.std.specs.Prelude.{◌≡◌, ◌<◌, ◌≤◌, ◌+◌, ◌*◌, ◌/◌, IfOk, OnOk, drop, length, take, ◌^◌};
ghost use Rattle.store_model.specs.declared.journal.TheConstants.{BLOCKS, WHOLE};

use crate::calls::{cut_told, read_into, sync_area, write_told};
use crate::compare::put_at;
use crate::found::Change;
use store_model::area::Area;
use store_model::disk::{Disk, DiskFailure};
use store_model::journal::{BLOCK, ENTRY, FIRST_BLOCK, HEADER};

/// How many bytes of a whole document are copied at once.
const PIECE: u64 = 65_536;

/// How many blocks are written at once.
const RUN: u64 = 127;

/// Carries out an open journal: the document area becomes what it tells, and lasts.
pub(crate) fn carry_out<D: Disk>(disk: &mut D, change: Change) -> Result<(), DiskFailure>
    requires open { D.follows_model → IsOpenWith change (D.reads disk.old) }
    requires durable { D.follows_model → Only (D.reads disk.old) (D.may_leave disk.old) }
    ensures written { D.follows_model
        → OnOk result (D.reads disk.new ≡ changed Document (changed_document (D.reads disk.old))
        (D.reads disk.old)) }
    ensures durable { D.follows_model → OnOk result (Only (D.reads disk.new) (D.may_leave disk.new)) }
    ensures stays { D.follows_model → StaysIn D.may_leave D.moment D.left_since disk.old disk.new
        (IsInstalling (D.reads disk.old)) }
    ensures count { Counts (D.failed disk.old) (D.failed disk.new) result }
{
    write_change(disk, change)?;
    cut_told(disk, u64::from(change.size()))?;
    sync_area(disk, Area::Document)
}

/// Writes what an open journal holds.
fn write_change<D: Disk>(disk: &mut D, change: Change) -> Result<(), DiskFailure>
    requires ready { D.follows_model → CanInstall D.reads D.may_leave disk.old }
    requires holds { D.follows_model → HoldsChange (D.reads disk.old).journal change }
    ensures written { D.follows_model
        → OnOk result (take (new_size change) (D.reads disk.new).document ≡ changed_document (D.reads disk.old)) }
    ensures stays { D.follows_model → StaysIn D.may_leave D.moment D.left_since disk.old disk.new
        (IsInstalling (D.reads disk.old)) }
    ensures count { Counts (D.failed disk.old) (D.failed disk.new) result }
{
    match change {
        Change::Whole(size) => write_whole(disk, size),
        Change::Blocks(count, size) => write_blocks(disk, count, size),
    }
}

/// Copies the document that a journal in form 0 holds, a piece at a time.
fn write_whole<D: Disk>(disk: &mut D, size: u32) -> Result<(), DiskFailure>
    requires ready { D.follows_model → CanInstall D.reads D.may_leave disk.old }
    requires holds { D.follows_model → HoldsChange (D.reads disk.old).journal (Whole size) }
    ensures written { D.follows_model
        → OnOk result (take size (D.reads disk.new).document ≡ changed_document (D.reads disk.old)) }
    ensures stays { D.follows_model → StaysIn D.may_leave D.moment D.left_since disk.old disk.new
        (IsInstalling (D.reads disk.old)) }
    ensures count { Counts (D.failed disk.old) (D.failed disk.new) result }
{
    let all = u64::from(size);
    let mut piece = [0u8; PIECE as usize];
    let mut done = 0u64;
    while done < all {
        let many = (all - done).min(PIECE);
        copy_piece(disk, done, &mut piece[..many as usize])?;
        done += many;
    }
    Ok(())
}

/// Copies a piece of that document.
fn copy_piece<D: Disk>(disk: &mut D, done: u64, piece: &mut [u8]) -> Result<(), DiskFailure>
    requires ready { D.follows_model → CanInstall D.reads D.may_leave disk.old }
    requires form { D.follows_model → form_in (D.reads disk.old).journal ≡ WHOLE }
    requires there { D.follows_model → 9 + done + length piece.old ≤ length (D.reads disk.old).journal }
    requires within { D.follows_model → done ≤ length (D.reads disk.old).document }
    requires small { done < 2 ^ 32 }
    ensures written { D.follows_model
        → OnOk result (D.reads disk.new ≡ changed Document
        (put (D.reads disk.old).document done
        (take (length piece.old) (drop (HEADER + done) (D.reads disk.old).journal))) (D.reads disk.old)) }
    ensures stays { D.follows_model → StaysIn D.may_leave D.moment D.left_since disk.old disk.new
        (IsInstalling (D.reads disk.old)) }
    ensures count { Counts (D.failed disk.old) (D.failed disk.new) result }
{
    read_into(disk, Area::Journal, HEADER + done, piece)?;
    write_told(disk, done, piece)
}

/// Writes the blocks that a journal in form 1 holds, in runs of blocks that follow one another. What is read is at most
/// twice what is written, and a block.
fn write_blocks<D: Disk>(disk: &mut D, count: u32, size: u32) -> Result<(), DiskFailure>
    requires ready { D.follows_model → CanInstall D.reads D.may_leave disk.old }
    requires holds { D.follows_model → HoldsChange (D.reads disk.old).journal (Blocks count size) }
    ensures written { D.follows_model
        → OnOk result (take size (D.reads disk.new).document ≡ changed_document (D.reads disk.old)) }
    ensures stays { D.follows_model → StaysIn D.may_leave D.moment D.left_since disk.old disk.new
        (IsInstalling (D.reads disk.old)) }
    ensures count { Counts (D.failed disk.old) (D.failed disk.new) result }
{
    let all = u64::from(count);
    let mut entries = [0u8; (RUN * ENTRY) as usize];
    let mut run = [0u8; (RUN * BLOCK) as usize];
    let mut done = 0u64;
    let mut many = 1u64;
    while done < all {
        let most = many.min(all - done);
        let taken = write_run(
            disk,
            done,
            &mut entries[..(ENTRY * most) as usize],
            &mut run,
        )?;
        done += taken;
        many = (2 * taken).min(RUN);
    }
    Ok(())
}

/// Writes the longest front of blocks that follow one another, of those from this one on that fit the buffers. Gives
/// how many there were.
fn write_run<D: Disk>(
    disk: &mut D,
    index: u64,
    entries: &mut [u8],
    run: &mut [u8],
) -> Result<u64, DiskFailure>
    requires ready { D.follows_model → CanInstall D.reads D.may_leave disk.old }
    requires form { D.follows_model → form_in (D.reads disk.old).journal ≡ BLOCKS }
    requires small { index < 2 ^ 32 }
    requires some { 516 ≤ length entries.old }
    requires fits { length entries.old ≤ length run.old + 4 * (length entries.old / 516) }
    requires room { D.follows_model → 516 * index + length entries.old ≤ 516 * count_in (D.reads disk.old).journal }
    requires within { D.follows_model
        → 512 * (block_at (FIRST_BLOCK + 516 * index) (D.reads disk.old).journal).number
        ≤ length (D.reads disk.old).document }
    ensures taken { IfOk result (λ n. 1 ≤ n) }
    ensures within { IfOk result (λ n. 516 * n ≤ length entries.old) }
    ensures follow { D.follows_model → IfOk result (λ n. let at = FIRST_BLOCK + 516 * index in
        Follow (block_at at (D.reads disk.old).journal).number (blocks_from n at (D.reads disk.old).journal)) }
    ensures written { D.follows_model → IfOk result (λ n. let at = FIRST_BLOCK + 516 * index in
        let first = 512 * (block_at at (D.reads disk.old).journal).number in
        D.reads disk.new ≡ changed Document
        (put (D.reads disk.old).document first (joined (blocks_from n at (D.reads disk.old).journal)))
        (D.reads disk.old)) }
    ensures stays { D.follows_model → StaysIn D.may_leave D.moment D.left_since disk.old disk.new
        (IsInstalling (D.reads disk.old)) }
    ensures count { Counts (D.failed disk.old) (D.failed disk.new) result }
    ensures entries { length entries.new ≡ length entries.old }
    ensures run { length run.new ≡ length run.old }
{
    read_into(disk, Area::Journal, FIRST_BLOCK + ENTRY * index, entries)?;
    let taken = gather(entries, run);
    let number = number_in(entries, 0);
    write_told(disk, BLOCK * number, &run[..512 * taken])?;
    Ok(taken as u64)
}

/// The number of a block in entries that were read.
#[tactic(auto, unfolding(store_model::specs::Journal::number_at))]
fn number_in(entries: &[u8], index: usize) -> u64
    requires { 516 * index + 4 ≤ length entries.now }
    ensures number { result ≡ (block_at (516 * index) entries.now).number }
    ensures small { result < 2 ^ 32 }
{
    let mut field = [0u8; 4];
    let at = 516 * index;
    field.copy_from_slice(&entries[at..at + 4]);
    u64::from(u32::from_le_bytes(field))
}

/// Takes the longest front of blocks that follow one another, and puts their bytes one behind another.
fn gather(entries: &[u8], run: &mut [u8]) -> usize
    requires some { 516 ≤ length entries.now }
    requires fits { length entries.now ≤ length run.old + 4 * (length entries.now / 516) }
    ensures taken { 1 ≤ result }
    ensures within { 516 * result ≤ length entries.now }
    ensures room { 512 * result ≤ length run.new }
    ensures follow { Follow (block_at 0 entries.now).number (blocks_from result 0 entries.now) }
    ensures joined { take (512 * result) run.new ≡ joined (blocks_from result 0 entries.now) }
    ensures run { length run.new ≡ length run.old }
{
    let first = number_in(entries, 0);
    let all = entries.len() / 516;
    let mut taken = 0usize;
    while taken < all {
        if number_in(entries, taken) != first + taken as u64 {
            return taken;
        }
        let from = 516 * taken + 4;
        put_at(run, 512 * taken, &entries[from..from + 512]);
        taken += 1;
    }
    taken
}
