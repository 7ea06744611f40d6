//! What `open` finds in the journal, before anything is changed.

ghost use Rattle.store_model.specs.Crash.{Counts, Quiet};
ghost use Rattle.store_model.specs.Journal.{blocks_from, count_in, fit, form_in, is_open, number_at, size_in};
ghost use Rattle.store_model.specs.Store.{OpenRefuses};
ghost use Rattle.store_core.specs.Steps.{Finds, IsOpenWith};
ghost use Rattle.std.specs.Prelude.{◌≡◌, ◌<◌, ◌≤◌, ◌+◌, ◌*◌, true, IfErr, IfOk, OnOk, drop, length, take, ◌^◌};
ghost use Rattle.store_model.specs.declared.journal.TheConstants.{BLOCKS, FIRST_BLOCK, HEADER};

use crate::calls::{length_of, read_into};
use crate::found::{Change, Found};
use store_model::area::Area;
use store_model::disk::{Disk, DiskFailure};
use store_model::fault::StoreFault;
use store_model::journal::{BLOCK, BLOCKS, ENTRY, FIRST_BLOCK, HEADER, OPEN, WHOLE};
use store_model::limit::MAX_DOCUMENT;

/// Reads the journal's gate, and behind an open one what the journal holds.
pub(crate) fn find<D: Disk>(disk: &mut D) -> Result<Found, StoreFault>
    ensures found { D.follows_model → IfOk result (Finds (D.reads disk.old)) }
    ensures same { D.follows_model → OnOk result (D.reads disk.new ≡ D.reads disk.old) }
    ensures quiet { D.follows_model → Quiet D.may_leave D.moment D.left_since disk.old disk.new }
    ensures refuses { IfErr result (OpenRefuses D.follows_model (D.reads disk.old) (D.failed disk.old)
        (D.failed disk.new)) }
    ensures count { IfOk result (λ _. D.failed disk.new ≡ D.failed disk.old) }
{
    let size = length_of(disk, Area::Journal)?;
    if size == 0 {
        return Ok(Found::Closed);
    }
    let mut gate = [0u8];
    read_into(disk, Area::Journal, 0, &mut gate)?;
    if gate[0] != OPEN {
        return Ok(Found::Closed);
    }
    if size < HEADER {
        return Ok(Found::Short);
    }
    let change = find_change(disk, size)?;
    Ok(Found::Open(change))
}

/// The length and the form that a journal says.
#[tactic(auto, unfolding(store_model::specs::Journal::size_in))]
fn read_head<D: Disk>(disk: &mut D) -> Result<(u64, u8), DiskFailure>
    requires { D.follows_model → 9 ≤ length (D.reads disk.old).journal }
    ensures size { D.follows_model → IfOk result (λ head. head.0 ≡ size_in (D.reads disk.old).journal) }
    ensures form { D.follows_model → IfOk result (λ head. head.1 ≡ form_in (D.reads disk.old).journal) }
    ensures same { D.follows_model → OnOk result (D.reads disk.new ≡ D.reads disk.old) }
    ensures quiet { D.follows_model → Quiet D.may_leave D.moment D.left_since disk.old disk.new }
    ensures count { Counts (D.failed disk.old) (D.failed disk.new) result }
{
    let mut field = [0u8; 8];
    read_into(disk, Area::Journal, 1, &mut field[..7])?;
    let mut form = [0u8];
    read_into(disk, Area::Journal, 8, &mut form)?;
    Ok((u64::from_le_bytes(field), form[0]))
}

/// A number of four bytes in the journal.
#[tactic(auto, unfolding(store_model::specs::Journal::number_at))]
fn read_number<D: Disk>(disk: &mut D, at: u64) -> Result<u64, DiskFailure>
    requires { D.follows_model → at + 4 ≤ length (D.reads disk.old).journal }
    ensures number { D.follows_model → IfOk result (λ n. n ≡ number_at at (D.reads disk.old).journal) }
    ensures small { IfOk result (λ n. n < 2 ^ 32) }
    ensures same { D.follows_model → OnOk result (D.reads disk.new ≡ D.reads disk.old) }
    ensures quiet { D.follows_model → Quiet D.may_leave D.moment D.left_since disk.old disk.new }
    ensures count { Counts (D.failed disk.old) (D.failed disk.new) result }
{
    let mut field = [0u8; 4];
    read_into(disk, Area::Journal, at, &mut field)?;
    Ok(u64::from(u32::from_le_bytes(field)))
}

/// Reads what an open journal of this length holds.
fn find_change<D: Disk>(disk: &mut D, long: u64) -> Result<Change, StoreFault>
    requires journal { D.follows_model → long ≡ length (D.reads disk.old).journal }
    requires gate { D.follows_model → is_open (D.reads disk.old).journal ≡ true }
    requires room { HEADER ≤ long }
    ensures found { D.follows_model → IfOk result (λ change. IsOpenWith change (D.reads disk.old)) }
    ensures same { D.follows_model → OnOk result (D.reads disk.new ≡ D.reads disk.old) }
    ensures quiet { D.follows_model → Quiet D.may_leave D.moment D.left_since disk.old disk.new }
    ensures refuses { IfErr result (OpenRefuses D.follows_model (D.reads disk.old) (D.failed disk.old)
        (D.failed disk.new)) }
    ensures count { IfOk result (λ _. D.failed disk.new ≡ D.failed disk.old) }
{
    let (size, form) = read_head(disk)?;
    if size > MAX_DOCUMENT {
        return Err(StoreFault::Damaged);
    }
    if form == WHOLE {
        if size > long - HEADER {
            return Err(StoreFault::Damaged);
        }
        return Ok(Change::Whole(size as u32));
    }
    if form != BLOCKS {
        return Err(StoreFault::Damaged);
    }
    find_blocks(disk, long, size)
}

/// Reads how many blocks an open journal in form 1 holds, and whether they fit the document area.
fn find_blocks<D: Disk>(disk: &mut D, long: u64, size: u64) -> Result<Change, StoreFault>
    requires journal { D.follows_model → long ≡ length (D.reads disk.old).journal }
    requires gate { D.follows_model → is_open (D.reads disk.old).journal ≡ true }
    requires form { D.follows_model → form_in (D.reads disk.old).journal ≡ BLOCKS }
    requires size { D.follows_model → size ≡ size_in (D.reads disk.old).journal }
    requires small { size ≤ MAX_DOCUMENT }
    ensures found { D.follows_model → IfOk result (λ change. IsOpenWith change (D.reads disk.old)) }
    ensures same { D.follows_model → OnOk result (D.reads disk.new ≡ D.reads disk.old) }
    ensures quiet { D.follows_model → Quiet D.may_leave D.moment D.left_since disk.old disk.new }
    ensures refuses { IfErr result (OpenRefuses D.follows_model (D.reads disk.old) (D.failed disk.old)
        (D.failed disk.new)) }
    ensures count { IfOk result (λ _. D.failed disk.new ≡ D.failed disk.old) }
{
    if long < FIRST_BLOCK {
        return Err(StoreFault::Damaged);
    }
    let count = read_number(disk, HEADER)?;
    if ENTRY * count > long - FIRST_BLOCK {
        return Err(StoreFault::Damaged);
    }
    let end = length_of(disk, Area::Document)?;
    if !blocks_fit(disk, size, end, count)? {
        return Err(StoreFault::Damaged);
    }
    Ok(Change::Blocks(count as u32, size as u32))
}

/// Whether the journal's blocks fit a document area that ends there, by their numbers alone.
fn blocks_fit<D: Disk>(disk: &mut D, size: u64, end: u64, count: u64) -> Result<bool, DiskFailure>
    requires small { count < 2 ^ 32 }
    requires there { D.follows_model → 13 + 516 * count ≤ length (D.reads disk.old).journal }
    ensures fits { D.follows_model
        → IfOk result (λ fits. fits ≡ fit size 0 end (blocks_from count FIRST_BLOCK (D.reads disk.old).journal)) }
    ensures same { D.follows_model → OnOk result (D.reads disk.new ≡ D.reads disk.old) }
    ensures quiet { D.follows_model → Quiet D.may_leave D.moment D.left_since disk.old disk.new }
    ensures count { Counts (D.failed disk.old) (D.failed disk.new) result }
{
    let mut least = 0u64;
    let mut reached = end;
    let mut index = 0u64;
    while index < count {
        let number = read_number(disk, FIRST_BLOCK + ENTRY * index)?;
        if number < least {
            return Ok(false);
        }
        if BLOCK * number >= size {
            return Ok(false);
        }
        if BLOCK * number > reached {
            return Ok(false);
        }
        least = number + 1;
        reached = reached.max(BLOCK * (number + 1));
        index += 1;
    }
    Ok(size <= reached)
}
