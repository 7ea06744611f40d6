//! The other steps of `open` and `commit`, with a sync of an area at the end of each.

ghost use Rattle.store_model.specs.Crash.{Counts, Only, Quiet, StaysIn};
ghost use Rattle.store_model.specs.Image.{changed, put};
ghost use Rattle.store_model.specs.Store.{ReadRefuses, Rests, StandsFor};
ghost use Rattle.store_model.specs.declared.area.Area.TheVariants.{Journal};
ghost use Rattle.store_core.specs.Resting.{IsAtRest};
ghost use Rattle.store_core.specs.Steps.{IsGating};
ghost use Rattle.std.specs.Prelude.{◌≡◌, [], ◌∷◌, IfErr, IfOk, OnOk};

use crate::calls::{length_of, read_into, sync_area};
use std::alloc::Global;
use store_model::area::Area;
use store_model::disk::{Disk, DiskFailure};
use store_model::fault::StoreFault;
use store_model::journal::CLOSED;

/// Syncs both areas, one after the other, so that a crash leaves what reads give.
pub(crate) fn settle<D: Disk>(disk: &mut D) -> Result<(), DiskFailure>
    ensures durable { D.follows_model → OnOk result (Only (D.reads disk.old) (D.may_leave disk.new)) }
    ensures same { D.follows_model → OnOk result (D.reads disk.new ≡ D.reads disk.old) }
    ensures quiet { D.follows_model → Quiet D.may_leave D.moment D.left_since disk.old disk.new }
    ensures count { Counts (D.failed disk.old) (D.failed disk.new) result }
{
    sync_area(disk, Area::Document)?;
    sync_area(disk, Area::Journal)
}

/// Writes the gate.
pub(crate) fn set_gate<D: Disk>(disk: &mut D, gate: u8) -> Result<(), DiskFailure>
    requires durable { D.follows_model → Only (D.reads disk.old) (D.may_leave disk.old) }
    ensures written { D.follows_model
        → OnOk result (D.reads disk.new ≡ changed Journal (put (D.reads disk.old).journal 0 (gate ∷ []))
        (D.reads disk.old)) }
    ensures durable { D.follows_model → OnOk result (Only (D.reads disk.new) (D.may_leave disk.new)) }
    ensures stays { D.follows_model → StaysIn D.may_leave D.moment D.left_since disk.old disk.new
        (IsGating (D.reads disk.old)) }
    ensures count { Counts (D.failed disk.old) (D.failed disk.new) result }
{
    disk.write(Area::Journal, 0, &[gate])?;
    sync_area(disk, Area::Journal)
}

/// Gives an empty journal a closed gate, which lasts: behind one a commit may be written.
pub(crate) fn give_gate<D: Disk>(disk: &mut D) -> Result<(), DiskFailure>
    requires rests { D.follows_model → IsAtRest D.reads D.may_leave disk.old }
    ensures rests { D.follows_model → OnOk result (Rests D.reads D.may_leave disk.new) }
    ensures document { D.follows_model → OnOk result ((D.reads disk.new).document ≡ (D.reads disk.old).document) }
    ensures stays { D.follows_model → StaysIn D.may_leave D.moment D.left_since disk.old disk.new
        (StandsFor (D.reads disk.old).document) }
    ensures count { Counts (D.failed disk.old) (D.failed disk.new) result }
{
    let size = length_of(disk, Area::Journal)?;
    if size > 0 {
        return Ok(());
    }
    set_gate(disk, CLOSED)
}

/// Reads the document area.
pub(crate) fn read_document<D: Disk>(alloc: Global, disk: &mut D) -> Result<Vec<u8>, StoreFault>
    ensures document { D.follows_model → IfOk result (λ bytes. bytes.items ≡ (D.reads disk.old).document) }
    ensures same { D.follows_model → OnOk result (D.reads disk.new ≡ D.reads disk.old) }
    ensures quiet { D.follows_model → Quiet D.may_leave D.moment D.left_since disk.old disk.new }
    ensures refuses { IfErr result (ReadRefuses (D.failed disk.old) (D.failed disk.new)) }
    ensures count { OnOk result (D.failed disk.new ≡ D.failed disk.old) }
{
    let size = length_of(disk, Area::Document)?;
    let mut bytes = vec![in alloc; 0u8; size as usize]?;
    read_into(disk, Area::Document, 0, &mut bytes)?;
    Ok(bytes)
}
