//! The whole of `open` and of `commit` over a disk, from their steps.

ghost use Rattle.store_model.specs.Changes.{journal_from};
ghost use Rattle.store_model.specs.Crash.{Counts, Quiet, StaysIn};
ghost use Rattle.store_model.specs.Journal.{restored};
ghost use Rattle.store_model.specs.Store.{IsBeforeOrAfter, OpenRefuses, Rests, StandsAsOneOf, UnlessDevice};
ghost use Rattle.store_model.specs.declared.journal.TheConstants.{CLOSED};
ghost use Rattle.store_core.specs.Resting.{IsAtRest, IsShut};
ghost use Rattle.std.specs.Prelude.{◌≡◌, ◌≤◌, IfErr, OnOk, length};

use crate::carry::carry_out;
use crate::find::find;
use crate::found::{Change, Found};
use crate::stage::stage;
use crate::steps::{give_gate, set_gate, settle};
use store_model::disk::{Disk, DiskFailure};
use store_model::fault::StoreFault;
use store_model::journal::{CLOSED, OPEN};
use store_model::limit::MAX_DOCUMENT;

/// Brings a disk to rest that a crash may have left: an open journal is carried out, and the gate closed. A closed
/// journal is left as it is, and so is an empty one: where a device is full, it has no room for a gate.
pub(crate) fn recover<D: Disk>(disk: &mut D) -> Result<(), StoreFault>
    ensures document { D.follows_model → OnOk result (restored (D.reads disk.old) ≡ Some (D.reads disk.new).document) }
    ensures rests { D.follows_model → OnOk result (IsAtRest D.reads D.may_leave disk.new) }
    ensures stays { D.follows_model → StaysIn D.may_leave D.moment D.left_since disk.old disk.new
        (StandsAsOneOf (D.may_leave disk.old)) }
    ensures same { D.follows_model → IsShut (D.reads disk.old).journal
        → OnOk result (D.reads disk.new ≡ D.reads disk.old) }
    ensures quiet { D.follows_model → IsShut (D.reads disk.old).journal
        → Quiet D.may_leave D.moment D.left_since disk.old disk.new }
    ensures refuses { IfErr result (OpenRefuses D.follows_model (D.reads disk.old) (D.failed disk.old)
        (D.failed disk.new)) }
    ensures kept { D.follows_model → IfErr result (UnlessDevice (D.reads disk.new ≡ D.reads disk.old)) }
    ensures count { OnOk result (D.failed disk.new ≡ D.failed disk.old) }
{
    settle(disk)?;
    let found = find(disk)?;
    match found {
        Found::Closed => {}
        Found::Short => set_gate(disk, CLOSED)?,
        Found::Open(change) => {
            carry_out(disk, change)?;
            set_gate(disk, CLOSED)?;
        }
    }
    Ok(())
}

/// Puts another document in the place of the one that a disk at rest holds. The first byte that an empty journal gets
/// is its gate.
pub(crate) fn replace<D: Disk>(disk: &mut D, document: &[u8]) -> Result<(), DiskFailure>
    requires rests { D.follows_model → IsAtRest D.reads D.may_leave disk.old }
    requires small { length document.now ≤ MAX_DOCUMENT }
    ensures document { D.follows_model → OnOk result ((D.reads disk.new).document ≡ document.now) }
    ensures journal { D.follows_model
        → OnOk result ((D.reads disk.new).journal ≡ journal_from CLOSED (D.reads disk.old).document document.now) }
    ensures rests { D.follows_model → OnOk result (IsAtRest D.reads D.may_leave disk.new) }
    ensures stays { D.follows_model → StaysIn D.may_leave D.moment D.left_since disk.old disk.new
        (IsBeforeOrAfter (D.reads disk.old).document document.now) }
    ensures count { Counts (D.failed disk.old) (D.failed disk.new) result }
{
    give_gate(disk)?;
    replace_behind(disk, document)
}

/// Puts another document in the place of one, behind the journal's closed gate.
fn replace_behind<D: Disk>(disk: &mut D, document: &[u8]) -> Result<(), DiskFailure>
    requires rests { D.follows_model → Rests D.reads D.may_leave disk.old }
    requires small { length document.now ≤ MAX_DOCUMENT }
    ensures document { D.follows_model → OnOk result ((D.reads disk.new).document ≡ document.now) }
    ensures journal { D.follows_model
        → OnOk result ((D.reads disk.new).journal ≡ journal_from CLOSED (D.reads disk.old).document document.now) }
    ensures rests { D.follows_model → OnOk result (IsAtRest D.reads D.may_leave disk.new) }
    ensures stays { D.follows_model → StaysIn D.may_leave D.moment D.left_since disk.old disk.new
        (IsBeforeOrAfter (D.reads disk.old).document document.now) }
    ensures count { Counts (D.failed disk.old) (D.failed disk.new) result }
{
    let count = stage(disk, document)?;
    set_gate(disk, OPEN)?;
    carry_out(disk, Change::Blocks(count, document.len() as u32))?;
    set_gate(disk, CLOSED)
}
