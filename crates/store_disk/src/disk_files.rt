//! The files of a disk, as a system gives them.

ghost use Rattle.store_model.specs.Crash.{CutShort, Elapses, Follows, InArea, IsWithin, Torn};
ghost use Rattle.store_model.specs.Image.{Image, bytes_of, changed, put};
ghost use Rattle.store_disk.specs.Sound.{StaysSound, WritesSound};
ghost use Rattle.std.specs.Prelude.{◌≡◌, ◌≤◌, Bool, false, true, IfOk, OnOk, drop, length, take, ℕ};

use std::io;
use store_model::area::Area;

/// A file for each area of a disk, and the folder that has their names. A call may read or write less than it is asked.
/// What is said of bytes and crashes holds of files that follow the model.
pub trait DiskFiles {
    /// That files of this type do what the clauses say of bytes and crashes. Of real files no contract can say it.
    ghost follows_model: { Type 0 };

    /// What reads give now.
    ghost reads: { Self → Image };

    /// What a crash now may leave.
    ghost may_leave: { Self → Image → Type 0 };

    /// The moment, a number that doesn't fall.
    ghost moment: { Self → ℕ };

    /// What a crash at some moment from that one on might have left, during a call or between two.
    ghost left_since: { Self → ℕ → Image → Type 0 };

    /// Whether a sync may succeed though what was written before it is lost: after a sync that failed, and after a
    /// write that failed for another reason than want of room.
    ghost sync_may_lie: { Self → Bool };

    /// Whether a crash leaves the names of both files.
    ghost has_names: { Self → Bool };

    /// The number of bytes of an area.
    fn length(&mut self, area: Area) -> io::Result<u64>
        ensures length { follows_model → IfOk result (λ n. n ≡ length (bytes_of area (reads self.old))) }
        ensures same { follows_model → OnOk result (reads self.new ≡ reads self.old) }
        ensures crash { follows_model → IsWithin (may_leave self.old) (may_leave self.new) }
        ensures time { follows_model → Elapses (moment self.old) (moment self.new) (left_since self.old)
            (left_since self.new) (may_leave self.new) }
        ensures sound { StaysSound sync_may_lie has_names self.old self.new };

    /// Fills a front of the buffer with an area's bytes from an offset on, and gives how long it is.
    fn read_at(&mut self, area: Area, at: u64, into: &mut [u8]) -> io::Result<usize>
        ensures bound { IfOk result (λ n. n ≤ length into.old) }
        ensures bytes { follows_model
            → IfOk result (λ n. take n into.new ≡ take n (drop at (bytes_of area (reads self.old)))) }
        ensures same { follows_model → OnOk result (reads self.new ≡ reads self.old) }
        ensures crash { follows_model → IsWithin (may_leave self.old) (may_leave self.new) }
        ensures time { follows_model → Elapses (moment self.old) (moment self.new) (left_since self.old)
            (left_since self.new) (may_leave self.new) }
        ensures sound { StaysSound sync_may_lie has_names self.old self.new };

    /// Writes a front of these bytes over what is there from an offset on, and past the end, and gives how long it is.
    /// Until a sync, a crash may leave any bytes in the whole range, and past the end.
    fn write_at(&mut self, area: Area, at: u64, bytes: &[u8]) -> io::Result<usize>
        ensures bound { IfOk result (λ n. n ≤ length bytes.now) }
        ensures written { follows_model → at ≤ length (bytes_of area (reads self.old))
            → IfOk result (λ n. reads self.new ≡ changed area
            (put (bytes_of area (reads self.old)) at (take n bytes.now)) (reads self.old)) }
        ensures crash { follows_model → Follows (InArea area (Torn at (length bytes.now))) (may_leave self.old)
            (may_leave self.new) }
        ensures grows { follows_model → IsWithin (may_leave self.new) (may_leave self.old) }
        ensures time { follows_model → Elapses (moment self.old) (moment self.new) (left_since self.old)
            (left_since self.new) (may_leave self.new) }
        ensures sound { WritesSound sync_may_lie has_names self.old self.new result };

    /// Cuts an area that is at least as long to this length. Until a sync, a crash may leave any length between.
    fn set_length(&mut self, area: Area, size: u64) -> io::Result<()>
        ensures cut { follows_model
            → OnOk result (reads self.new ≡ changed area (take size (bytes_of area (reads self.old)))
            (reads self.old)) }
        ensures crash { follows_model → size ≤ length (bytes_of area (reads self.old))
            → Follows (InArea area (CutShort size)) (may_leave self.old) (may_leave self.new) }
        ensures time { follows_model → Elapses (moment self.old) (moment self.new) (left_since self.old)
            (left_since self.new) (may_leave self.new) }
        ensures sound { StaysSound sync_may_lie has_names self.old self.new };

    /// After it, where a sync doesn't lie, a crash leaves of this area what reads give.
    fn sync(&mut self, area: Area) -> io::Result<()>
        ensures durable { follows_model → sync_may_lie self.old ≡ false
            → OnOk result ((c : Image) → may_leave self.new c → bytes_of area c ≡ bytes_of area (reads self.old)) }
        ensures same { follows_model → OnOk result (reads self.new ≡ reads self.old) }
        ensures crash { follows_model → IsWithin (may_leave self.old) (may_leave self.new) }
        ensures time { follows_model → Elapses (moment self.old) (moment self.new) (left_since self.old)
            (left_since self.new) (may_leave self.new) }
        ensures sound { OnOk result (sync_may_lie self.old ≡ false → sync_may_lie self.new ≡ false) }
        ensures named { has_names self.old ≡ true → has_names self.new ≡ true };

    /// After it, a crash leaves the names of both files.
    fn sync_names(&mut self) -> io::Result<()>
        ensures made { OnOk result (has_names self.new ≡ true) }
        ensures same { follows_model → OnOk result (reads self.new ≡ reads self.old) }
        ensures crash { follows_model → IsWithin (may_leave self.old) (may_leave self.new) }
        ensures time { follows_model → Elapses (moment self.old) (moment self.new) (left_since self.old)
            (left_since self.new) (may_leave self.new) }
        ensures sound { OnOk result (sync_may_lie self.old ≡ false → sync_may_lie self.new ≡ false) }
        ensures named { has_names self.old ≡ true → has_names self.new ≡ true };

    /// What reads give is one of the images that a crash may leave.
    ghost reads_are_left: { (files : Self) → may_leave files (reads files) };

    /// This moment is one of those since an earlier one.
    ghost counts_now: { (files : Self) (t : ℕ) (c : Image) → t ≤ moment files → may_leave files c
        → left_since files t c };

    /// Since this moment there is no other.
    ghost only_now: { (files : Self) (c : Image) → left_since files (moment files) c → may_leave files c };
}
