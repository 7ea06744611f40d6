//! A disk as the store sees it: what reads give, and what a crash may leave.

ghost use Rattle.store_model.specs.Crash.{Counts, CountsOwed, CutShort, Elapses, Follows, InArea, IsWithin, Torn};
ghost use Rattle.store_model.specs.Image.{Image, bytes_of, changed, put};
ghost use Rattle.std.specs.Prelude.{◌≡◌, ◌<◌, ◌≤◌, ◌+◌, ◌^◌, IfOk, OnOk, drop, length, take, ℕ};

use crate::area::Area;
use thiserror::Error;

/// A call of a disk that failed, and that the disk counted.
#[derive(Debug, Clone, Copy, Error)]
#[error("a call of the disk failed")]
pub struct DiskFailure;

/// A disk with two areas of bytes. What is said of bytes and crashes holds of a disk that follows the model; that
/// failures are counted holds of each. A disk that follows the model owes no answer past the end of an area, so such a
/// call needn't be counted where it fails. The count isn't told: who uses a disk can't act on it.
pub trait Disk {
    /// That disks of this type do what the clauses say of bytes and crashes. Of real files no contract can say it.
    ghost follows_model: { Type 0 };

    /// What reads give now.
    ghost reads: { Self → Image };

    /// What a crash now may leave.
    ghost may_leave: { Self → Image → Type 0 };

    /// The moment, a number that doesn't fall.
    ghost moment: { Self → ℕ };

    /// What a crash at some moment from that one on might have left, during a call or between two.
    ghost left_since: { Self → ℕ → Image → Type 0 };

    /// How many calls have failed.
    ghost failed: { Self → ℕ };

    /// That the count of failed calls isn't past its last value, where it rises no more: it is then read as risen. It
    /// does nothing.
    fn counts(&self)
        ensures { failed self.now < 2 ^ 64 };

    /// The number of bytes of an area.
    fn length(&mut self, area: Area) -> Result<u64, DiskFailure>
        ensures length { follows_model → IfOk result (λ n. n ≡ length (bytes_of area (reads self.old))) }
        ensures same { follows_model → OnOk result (reads self.new ≡ reads self.old) }
        ensures crash { follows_model → IsWithin (may_leave self.old) (may_leave self.new) }
        ensures time { follows_model → Elapses (moment self.old) (moment self.new) (left_since self.old)
            (left_since self.new) (may_leave self.new) }
        ensures count { Counts (failed self.old) (failed self.new) result };

    /// Fills the buffer with an area's bytes from an offset on. Where the area ends before, the call fails, and the
    /// disk owes no answer.
    fn read(&mut self, area: Area, at: u64, into: &mut [u8]) -> Result<(), DiskFailure>
        ensures bytes { follows_model
            → OnOk result (into.new ≡ take (length into.old) (drop at (bytes_of area (reads self.old)))) }
        ensures same { follows_model → OnOk result (reads self.new ≡ reads self.old) }
        ensures crash { follows_model → IsWithin (may_leave self.old) (may_leave self.new) }
        ensures time { follows_model → Elapses (moment self.old) (moment self.new) (left_since self.old)
            (left_since self.new) (may_leave self.new) }
        ensures count { CountsOwed (follows_model → at + length into.old ≤ length (bytes_of area (reads self.old)))
            (failed self.old) (failed self.new) result };

    /// Writes over what is there from an offset on, and past the end. Until a sync, a crash may leave any bytes in
    /// the range, and past the end. Where the area ends before the offset, the disk owes no answer.
    fn write(&mut self, area: Area, at: u64, bytes: &[u8]) -> Result<(), DiskFailure>
        ensures written { follows_model → at ≤ length (bytes_of area (reads self.old))
            → OnOk result (reads self.new ≡ changed area (put (bytes_of area (reads self.old)) at bytes.now)
            (reads self.old)) }
        ensures crash { follows_model → Follows (InArea area (Torn at (length bytes.now))) (may_leave self.old)
            (may_leave self.new) }
        ensures time { follows_model → Elapses (moment self.old) (moment self.new) (left_since self.old)
            (left_since self.new) (may_leave self.new) }
        ensures count { CountsOwed (follows_model → at ≤ length (bytes_of area (reads self.old))) (failed self.old)
            (failed self.new) result };

    /// Cuts an area that is longer to this length. Until a sync, a crash may leave any length between.
    fn cut(&mut self, area: Area, size: u64) -> Result<(), DiskFailure>
        ensures cut { follows_model
            → OnOk result (reads self.new ≡ changed area (take size (bytes_of area (reads self.old)))
            (reads self.old)) }
        ensures crash { follows_model → Follows (InArea area (CutShort size)) (may_leave self.old)
            (may_leave self.new) }
        ensures time { follows_model → Elapses (moment self.old) (moment self.new) (left_since self.old)
            (left_since self.new) (may_leave self.new) }
        ensures count { Counts (failed self.old) (failed self.new) result };

    /// After it, a crash leaves of this area what reads give.
    fn sync(&mut self, area: Area) -> Result<(), DiskFailure>
        ensures durable { follows_model → OnOk result ((c : Image) → may_leave self.new c
            → bytes_of area c ≡ bytes_of area (reads self.old)) }
        ensures same { follows_model → OnOk result (reads self.new ≡ reads self.old) }
        ensures crash { follows_model → IsWithin (may_leave self.old) (may_leave self.new) }
        ensures time { follows_model → Elapses (moment self.old) (moment self.new) (left_since self.old)
            (left_since self.new) (may_leave self.new) }
        ensures count { Counts (failed self.old) (failed self.new) result };

    /// What reads give is one of the images that a crash may leave.
    ghost reads_are_left: { (disk : Self) → may_leave disk (reads disk) };

    /// This moment is one of those since an earlier one.
    ghost counts_now: { (disk : Self) (t : ℕ) (c : Image) → t ≤ moment disk → may_leave disk c → left_since disk t c };

    /// Since this moment there is no other.
    ghost only_now: { (disk : Self) (c : Image) → left_since disk (moment disk) c → may_leave disk c };
}
