//! A disk in memory, which keeps the list of its calls, and can be told to fail.

ghost use Rattle.store_memory.specs.CallLaws.{here_now, none_but_now, reads_stay_left};
ghost use Rattle.store_memory.specs.Calls.{LeftAfter, LeftSince, image_of, reads_after};
ghost use Rattle.store_model.specs.Image.{Image};
ghost use Rattle.std.specs.Prelude.{◌≡◌, length};

use crate::areas::{Areas, Call, log_cut, log_sync, log_write};
use crate::failures::{fail, refuse};
use std::alloc::{AllocError, Global};
use store_model::area::Area;
use store_model::disk::{Disk, DiskFailure};

/// Which calls of a disk fail.
#[derive(Clone, Copy)]
pub enum Faults {
    /// None.
    Never,
    /// The call after so many, and no other.
    Once(u64),
    /// Each call after so many.
    From(u64),
}

impl Faults {
    ghost use Rattle.store_memory.specs.Memory.{after_call, strikes};

    /// Whether the next call fails, which it counts off.
    fn strike(&mut self) -> bool
        ensures value { result ≡ strikes self.old }
        ensures next { self.new ≡ after_call self.old }
    {
        match *self {
            Faults::Never => false,
            Faults::Once(0) => {
                *self = Faults::Never;
                true
            }
            Faults::Once(left) => {
                *self = Faults::Once(left - 1);
                false
            }
            Faults::From(0) => true,
            Faults::From(left) => {
                *self = Faults::From(left - 1);
                false
            }
        }
    }
}

/// A disk in memory. It keeps what its areas held at first and each call that changed one or made it last, so that the
/// images which a crash at any moment may leave can be named.
#[derive(Drop)]
pub struct MemoryDisk {
    alloc: Global,
    first: Areas,
    held: Areas,
    calls: Vec<Call>,
    faults: Faults,
    failed: u64,
    /// How many calls failed for want of memory.
    refused: u64,
    ghost replayed: { image_of held ≡ reads_after (image_of first) calls.items },
}

impl MemoryDisk {
    ghost use Rattle.store_memory.specs.Memory.{calls_of, failed_of, faults_of, first_of, reads_of, refused_of};
    ghost use Rattle.store_memory.specs.declared.memory_disk.Faults.TheVariants.{Never};
    ghost use Rattle.std.specs.Prelude.{[], IfOk};

    /// A disk with these bytes, all of them synced. `NoMemory` of the allocator is handed on.
    pub fn new(alloc: Global, document: Vec<u8>, journal: Vec<u8>) -> Result<MemoryDisk, AllocError>
        ensures first { IfOk result (λ disk. first_of disk ≡ record {
          document = document.items;
          journal = journal.items;
        }) }
        ensures calls { IfOk result (λ disk. calls_of disk ≡ []) }
        ensures failed { IfOk result (λ disk. failed_of disk ≡ 0) }
        ensures refused { IfOk result (λ disk. refused_of disk ≡ 0) }
        ensures faults { IfOk result (λ disk. faults_of disk ≡ Never) }
    {
        let held = Areas { document, journal };
        let first = held.copy(alloc)?;
        Ok(MemoryDisk {
            alloc,
            first,
            held,
            calls: Vec::new(alloc),
            faults: Faults::Never,
            failed: 0,
            refused: 0,
        })
    }

    /// From now on these calls fail, counted from here.
    pub fn set_faults(&mut self, faults: Faults)
        ensures faults { faults_of self.new ≡ faults }
        ensures first { first_of self.new ≡ first_of self.old }
        ensures calls { calls_of self.new ≡ calls_of self.old }
        ensures failed { failed_of self.new ≡ failed_of self.old }
        ensures refused { refused_of self.new ≡ refused_of self.old }
    {
        self.faults = faults;
    }

    /// How many calls have failed. At its last value the count rises no more.
    pub fn failures(&self) -> u64
        ensures { result ≡ failed_of self.now }
    {
        self.failed
    }

    /// How many calls have failed for want of memory. At its last value the count rises no more.
    pub fn refused(&self) -> u64
        ensures { result ≡ refused_of self.now }
    {
        self.refused
    }

    /// What the areas held at first.
    pub fn first(&self) -> &Areas
        ensures { image_of result.now ≡ first_of self.now }
    {
        &self.first
    }

    /// What reads give now.
    pub fn held(&self) -> &Areas
        ensures { image_of result.now ≡ reads_of self.now }
    {
        &self.held
    }

    /// The calls that changed an area or made it last, the first of them first.
    pub fn calls(&self) -> &[Call]
        ensures { result.now ≡ calls_of self.now }
    {
        &self.calls
    }
}

impl Disk for MemoryDisk {
    ghost use Rattle.store_model.specs.Crash.{Counts, CutShort, Elapses, Follows, InArea, IsWithin, Torn};
    ghost use Rattle.store_model.specs.Image.{bytes_of, changed, put};
    ghost use Rattle.store_memory.specs.Memory.{IsAnswered, IsStruck, calls_of, failed_of, faults_of, first_of};
    ghost use Rattle.store_memory.specs.Memory.{left_since_of, may_leave_of, moment_of, reads_of, strikes};
    ghost use Rattle.std.specs.Prelude.{◌≤◌, ◌+◌, false, IfOk, IsOk, OnOk, drop, take};

    ghost follows_model = { Unit {0} };

    ghost reads = { reads_of };

    ghost may_leave = { may_leave_of };

    ghost moment = { moment_of };

    ghost left_since = { left_since_of };

    ghost failed = { failed_of };

    ghost reads_are_left = { λ d. reads_stay_left (first_of d) (calls_of d) };

    ghost counts_now = { λ d t c le now. here_now (first_of d) (calls_of d) t c le now };

    ghost only_now = { λ d c left. none_but_now (first_of d) (calls_of d) c left };

    fn counts(&self) {
        let _failed = self.failed;
    }

    fn length(&mut self, area: Area) -> Result<u64, DiskFailure>
        ensures length { IfOk result (λ n. n ≡ length (bytes_of area (reads_of self.old))) }
        ensures same { reads_of self.new ≡ reads_of self.old }
        ensures crash { IsWithin (may_leave_of self.old) (may_leave_of self.new) }
        ensures time { Elapses (moment_of self.old) (moment_of self.new) (left_since_of self.old)
            (left_since_of self.new) (may_leave_of self.new) }
        ensures count { Counts (failed_of self.old) (failed_of self.new) result }
        ensures faults { IsStruck (faults_of self.old) (faults_of self.new) result }
        ensures answers { strikes (faults_of self.old) ≡ false → IsOk result }
    {
        if self.faults.strike() {
            return Err(fail(&mut self.failed));
        }
        Ok(self.held.bytes(area).len() as u64)
    }

    fn read(&mut self, area: Area, at: u64, into: &mut [u8]) -> Result<(), DiskFailure>
        ensures bytes { OnOk result (into.new ≡ take (length into.old) (drop at (bytes_of area (reads_of self.old)))) }
        ensures same { reads_of self.new ≡ reads_of self.old }
        ensures crash { IsWithin (may_leave_of self.old) (may_leave_of self.new) }
        ensures time { Elapses (moment_of self.old) (moment_of self.new) (left_since_of self.old)
            (left_since_of self.new) (may_leave_of self.new) }
        ensures count { Counts (failed_of self.old) (failed_of self.new) result }
        ensures faults { IsStruck (faults_of self.old) (faults_of self.new) result }
        ensures answers { strikes (faults_of self.old) ≡ false → at + length into.old
            ≤ length (bytes_of area (reads_of self.old)) → IsOk result }
    {
        if self.faults.strike() {
            return Err(fail(&mut self.failed));
        }
        let bytes = self.held.bytes(area);
        let at = at as usize;
        if at > bytes.len() || into.len() > bytes.len() - at {
            return Err(fail(&mut self.failed));
        }
        into.copy_from_slice(&bytes[at..at + into.len()]);
        Ok(())
    }

    fn write(&mut self, area: Area, at: u64, bytes: &[u8]) -> Result<(), DiskFailure>
        ensures written { at ≤ length (bytes_of area (reads_of self.old))
            → OnOk result (reads_of self.new ≡ changed area (put (bytes_of area (reads_of self.old)) at bytes.now)
            (reads_of self.old)) }
        ensures crash { Follows (InArea area (Torn at (length bytes.now))) (may_leave_of self.old)
            (may_leave_of self.new) }
        ensures grows { IsWithin (may_leave_of self.new) (may_leave_of self.old) }
        ensures time { Elapses (moment_of self.old) (moment_of self.new) (left_since_of self.old)
            (left_since_of self.new) (may_leave_of self.new) }
        ensures count { Counts (failed_of self.old) (failed_of self.new) result }
        ensures faults { IsStruck (faults_of self.old) (faults_of self.new) result }
        ensures answers { strikes (faults_of self.old) ≡ false → at ≤ length (bytes_of area (reads_of self.old))
            → IsAnswered self.old self.new result }
    {
        if self.faults.strike() || at > self.held.bytes(area).len() as u64 {
            return Err(fail(&mut self.failed));
        }
        match log_write(self.alloc, &mut self.held, &mut self.calls, area, at, bytes) {
            Ok(()) => Ok(()),
            Err(_) => Err(refuse(&mut self.failed, &mut self.refused)),
        }
    }

    fn cut(&mut self, area: Area, size: u64) -> Result<(), DiskFailure>
        ensures cut { OnOk result (reads_of self.new ≡ changed area (take size (bytes_of area (reads_of self.old)))
            (reads_of self.old)) }
        ensures crash { Follows (InArea area (CutShort size)) (may_leave_of self.old) (may_leave_of self.new) }
        ensures time { Elapses (moment_of self.old) (moment_of self.new) (left_since_of self.old)
            (left_since_of self.new) (may_leave_of self.new) }
        ensures count { Counts (failed_of self.old) (failed_of self.new) result }
        ensures faults { IsStruck (faults_of self.old) (faults_of self.new) result }
        ensures answers { strikes (faults_of self.old) ≡ false → IsAnswered self.old self.new result }
    {
        if self.faults.strike() {
            return Err(fail(&mut self.failed));
        }
        match log_cut(&mut self.held, &mut self.calls, area, size) {
            Ok(()) => Ok(()),
            Err(_) => Err(refuse(&mut self.failed, &mut self.refused)),
        }
    }

    fn sync(&mut self, area: Area) -> Result<(), DiskFailure>
        ensures durable { OnOk result ((c : Image) → may_leave_of self.new c
            → bytes_of area c ≡ bytes_of area (reads_of self.old)) }
        ensures same { reads_of self.new ≡ reads_of self.old }
        ensures crash { IsWithin (may_leave_of self.old) (may_leave_of self.new) }
        ensures time { Elapses (moment_of self.old) (moment_of self.new) (left_since_of self.old)
            (left_since_of self.new) (may_leave_of self.new) }
        ensures count { Counts (failed_of self.old) (failed_of self.new) result }
        ensures faults { IsStruck (faults_of self.old) (faults_of self.new) result }
        ensures answers { strikes (faults_of self.old) ≡ false → IsAnswered self.old self.new result }
    {
        if self.faults.strike() {
            return Err(fail(&mut self.failed));
        }
        match log_sync(&mut self.calls, area) {
            Ok(()) => Ok(()),
            Err(_) => Err(refuse(&mut self.failed, &mut self.refused)),
        }
    }
}
