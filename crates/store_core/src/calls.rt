//! The calls of a disk, each with what a crash since its start may leave.

ghost use Rattle.store_model.specs.Crash.{Counts, Quiet, StaysIn};
ghost use Rattle.store_model.specs.Image.{Image, bytes_of, changed, put};
ghost use Rattle.store_model.specs.Journal.{size_in};
ghost use Rattle.store_model.specs.Patches.{IsTold};
ghost use Rattle.store_model.specs.declared.area.Area.TheVariants.{Document, Journal};
ghost use Rattle.store_core.specs.Steps.{CanInstall, CanStage, IsInstalling, IsStaging};
ghost use Rattle.std.specs.Prelude.{◌≡◌, ◌<◌, ◌≤◌, ◌+◌, IfOk, OnOk, drop, length, take};

use store_model::area::Area;
use store_model::disk::{Disk, DiskFailure};

/// The number of bytes of an area.
pub(crate) fn length_of<D: Disk>(disk: &mut D, area: Area) -> Result<u64, DiskFailure>
    ensures length { D.follows_model → IfOk result (λ n. n ≡ length (bytes_of area (D.reads disk.old))) }
    ensures same { D.follows_model → OnOk result (D.reads disk.new ≡ D.reads disk.old) }
    ensures quiet { D.follows_model → Quiet D.may_leave D.moment D.left_since disk.old disk.new }
    ensures count { Counts (D.failed disk.old) (D.failed disk.new) result }
{
    disk.length(area)
}

/// Fills the buffer with an area's bytes from an offset on, all of them within the area: what a disk may refuse as past
/// its end isn't asked for. An empty one asks nothing of the disk, so the offset may be past the end then.
pub(crate) fn read_into<D: Disk>(
    disk: &mut D,
    area: Area,
    at: u64,
    into: &mut [u8],
) -> Result<(), DiskFailure>
    requires within { D.follows_model → 0 < length into.old → at + length into.old
        ≤ length (bytes_of area (D.reads disk.old)) }
    ensures bytes { D.follows_model
        → OnOk result (into.new ≡ take (length into.old) (drop at (bytes_of area (D.reads disk.old)))) }
    ensures same { D.follows_model → OnOk result (D.reads disk.new ≡ D.reads disk.old) }
    ensures quiet { D.follows_model → Quiet D.may_leave D.moment D.left_since disk.old disk.new }
    ensures count { Counts (D.failed disk.old) (D.failed disk.new) result }
{
    if into.is_empty() {
        return Ok(());
    }
    disk.read(area, at, into)
}

/// Makes an area last.
pub(crate) fn sync_area<D: Disk>(disk: &mut D, area: Area) -> Result<(), DiskFailure>
    ensures durable { D.follows_model → OnOk result ((c : Image) → D.may_leave disk.new c
        → bytes_of area c ≡ bytes_of area (D.reads disk.old)) }
    ensures same { D.follows_model → OnOk result (D.reads disk.new ≡ D.reads disk.old) }
    ensures quiet { D.follows_model → Quiet D.may_leave D.moment D.left_since disk.old disk.new }
    ensures count { Counts (D.failed disk.old) (D.failed disk.new) result }
{
    disk.sync(area)
}

/// Writes into the document area what an open journal tells, from its end at most.
pub(crate) fn write_told<D: Disk>(disk: &mut D, at: u64, bytes: &[u8]) -> Result<(), DiskFailure>
    requires ready { D.follows_model → CanInstall D.reads D.may_leave disk.old }
    requires told { D.follows_model → IsTold (D.reads disk.old).journal at (length bytes.now) }
    requires within { D.follows_model → at ≤ length (D.reads disk.old).document }
    ensures written { D.follows_model
        → OnOk result (D.reads disk.new ≡ changed Document (put (D.reads disk.old).document at bytes.now)
        (D.reads disk.old)) }
    ensures stays { D.follows_model → StaysIn D.may_leave D.moment D.left_since disk.old disk.new
        (IsInstalling (D.reads disk.old)) }
    ensures count { Counts (D.failed disk.old) (D.failed disk.new) result }
{
    disk.write(Area::Document, at, bytes)
}

/// Writes into the journal behind its closed gate, from its end at most.
pub(crate) fn write_behind<D: Disk>(disk: &mut D, at: u64, bytes: &[u8]) -> Result<(), DiskFailure>
    requires closed { D.follows_model → CanStage D.reads D.may_leave disk.old }
    requires behind { 1 ≤ at }
    requires within { D.follows_model → at ≤ length (D.reads disk.old).journal }
    ensures written { D.follows_model
        → OnOk result (D.reads disk.new ≡ changed Journal (put (D.reads disk.old).journal at bytes.now)
        (D.reads disk.old)) }
    ensures stays { D.follows_model → StaysIn D.may_leave D.moment D.left_since disk.old disk.new
        (IsStaging (D.reads disk.old)) }
    ensures count { Counts (D.failed disk.old) (D.failed disk.new) result }
{
    disk.write(Area::Journal, at, bytes)
}

/// Cuts the document area to the length that an open journal tells.
pub(crate) fn cut_told<D: Disk>(disk: &mut D, size: u64) -> Result<(), DiskFailure>
    requires ready { D.follows_model → CanInstall D.reads D.may_leave disk.old }
    requires told { D.follows_model → size ≡ size_in (D.reads disk.old).journal }
    ensures cut { D.follows_model
        → OnOk result (D.reads disk.new ≡ changed Document (take size (D.reads disk.old).document)
        (D.reads disk.old)) }
    ensures stays { D.follows_model → StaysIn D.may_leave D.moment D.left_since disk.old disk.new
        (IsInstalling (D.reads disk.old)) }
    ensures count { Counts (D.failed disk.old) (D.failed disk.new) result }
{
    disk.cut(Area::Document, size)
}

/// Cuts the journal behind its closed gate.
pub(crate) fn cut_behind<D: Disk>(disk: &mut D, size: u64) -> Result<(), DiskFailure>
    requires closed { D.follows_model → CanStage D.reads D.may_leave disk.old }
    requires behind { 1 ≤ size }
    ensures cut { D.follows_model
        → OnOk result (D.reads disk.new ≡ changed Journal (take size (D.reads disk.old).journal)
        (D.reads disk.old)) }
    ensures stays { D.follows_model → StaysIn D.may_leave D.moment D.left_since disk.old disk.new
        (IsStaging (D.reads disk.old)) }
    ensures count { Counts (D.failed disk.old) (D.failed disk.new) result }
{
    disk.cut(Area::Journal, size)
}
