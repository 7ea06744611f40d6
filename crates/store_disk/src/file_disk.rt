//! A disk over files.

ghost use Rattle.store_model.specs.Crash.{Rose};
ghost use Rattle.store_disk.specs.Sound.{SaysNoRoom};
ghost use Rattle.std.specs.Prelude.{◌≡◌, ◌≤◌, false, true};

use crate::disk_files::DiskFiles;
use crate::loops::{cut_longer, read_whole, sync_with_names, write_whole};
use std::io::{self, ErrorKind};
use store_model::area::Area;
use store_model::disk::{Disk, DiskFailure};

/// A disk over two files. It follows the model of a disk where its files follow theirs.
#[derive(Drop)]
pub struct FileDisk<F: DiskFiles> {
    files: F,
    /// Whether the files' names are synced.
    names_synced: bool,
    /// Whether a sync failed, or a write for another reason than want of room. What was written before may be lost
    /// then, though reads still give it and a later sync succeeds.
    sync_may_lie: bool,
    failed: u64,
    ghost sound: { sync_may_lie ≡ false → F.sync_may_lie files ≡ false },
    ghost named: { names_synced ≡ true → F.has_names files ≡ true },
}

impl<F: DiskFiles> FileDisk<F> {
    ghost use Rattle.store_disk.specs.Files.{failures_of, files_of, sync_may_lie_of};

    /// A disk over these files, whose syncs don't lie. Their names are synced with the first area that is: who made
    /// the files may have ended before it synced them.
    pub fn new(files: F) -> FileDisk<F>
        requires { F.sync_may_lie files ≡ false }
        ensures files { files_of result ≡ files }
        ensures failed { failures_of result ≡ 0 }
        ensures sync { sync_may_lie_of result ≡ false }
    {
        FileDisk {
            files,
            names_synced: false,
            sync_may_lie: false,
            failed: 0,
        }
    }

    /// How many calls have failed. At its last value the count rises no more.
    pub fn failures(&self) -> u64
        ensures { result ≡ failures_of self.now }
    {
        self.failed
    }

    /// The files.
    pub fn into_files(self) -> F
        ensures { result ≡ files_of self }
    {
        self.files
    }
}

/// Counts a failure.
fn fail(failed: &mut u64) -> DiskFailure
    ensures later { failed.old ≤ failed.new }
    ensures rose { Rose failed.old failed.new }
{
    *failed = failed.saturating_add(1);
    DiskFailure
}

/// Whether a sync may lie after a write with this error, by whether one might before. A write may be refused for what
/// became of an earlier one, which no sync tells then.
fn may_lie_after(before: bool, error: &io::Error) -> bool
    ensures before { result ≡ false → before ≡ false }
    ensures room { result ≡ false → SaysNoRoom error.now }
{
    let kind = error.kind();
    if before {
        return true;
    }
    kind != ErrorKind::StorageFull
        && kind != ErrorKind::QuotaExceeded
        && kind != ErrorKind::FileTooLarge
}

impl<F: DiskFiles> Disk for FileDisk<F> {
    ghost use Rattle.store_disk.specs.Files.{failures_of, files_of, sync_may_lie_of};
    ghost use Rattle.store_model.specs.Crash.{Counts, Elapses, IsWithin};
    ghost use Rattle.store_model.specs.Image.{Image, bytes_of};
    ghost use Rattle.std.specs.Prelude.{IsErr, OnErr, OnOk};

    ghost follows_model = { F.follows_model };

    ghost reads = { λ d. F.reads (files_of d) };

    ghost may_leave = { λ d c. F.may_leave (files_of d) c };

    ghost moment = { λ d. F.moment (files_of d) };

    ghost left_since = { λ d t c. F.left_since (files_of d) t c };

    ghost failed = { failures_of };

    ghost reads_are_left = { λ d. F.reads_are_left (files_of d) };

    ghost counts_now = { λ d t c le now. F.counts_now (files_of d) t c le now };

    ghost only_now = { λ d c left. F.only_now (files_of d) c left };

    fn counts(&self) {
        let _failed = self.failed;
    }

    fn length(&mut self, area: Area) -> Result<u64, DiskFailure> {
        match self.files.length(area) {
            Ok(n) => Ok(n),
            Err(_) => Err(fail(&mut self.failed)),
        }
    }

    fn read(&mut self, area: Area, at: u64, into: &mut [u8]) -> Result<(), DiskFailure> {
        match read_whole(&mut self.files, area, at, into) {
            Ok(()) => Ok(()),
            Err(_) => Err(fail(&mut self.failed)),
        }
    }

    fn write(&mut self, area: Area, at: u64, bytes: &[u8]) -> Result<(), DiskFailure> {
        match write_whole(&mut self.files, area, at, bytes) {
            Ok(()) => Ok(()),
            Err(error) => {
                self.sync_may_lie = may_lie_after(self.sync_may_lie, &error);
                Err(fail(&mut self.failed))
            }
        }
    }

    fn cut(&mut self, area: Area, size: u64) -> Result<(), DiskFailure> {
        match cut_longer(&mut self.files, area, size) {
            Ok(()) => Ok(()),
            Err(_) => Err(fail(&mut self.failed)),
        }
    }

    /// After a sync that failed each one fails, and after a write that failed for another reason than want of room.
    fn sync(&mut self, area: Area) -> Result<(), DiskFailure>
        ensures durable { F.follows_model → OnOk result ((c : Image) → F.may_leave (files_of self.new) c
            → bytes_of area c ≡ bytes_of area (F.reads (files_of self.old))) }
        ensures same { F.follows_model → OnOk result (F.reads (files_of self.new) ≡ F.reads (files_of self.old)) }
        ensures crash { F.follows_model → IsWithin (F.may_leave (files_of self.old)) (F.may_leave (files_of self.new)) }
        ensures time { F.follows_model → Elapses (F.moment (files_of self.old)) (F.moment (files_of self.new))
            (F.left_since (files_of self.old)) (F.left_since (files_of self.new))
            (F.may_leave (files_of self.new)) }
        ensures count { Counts (failures_of self.old) (failures_of self.new) result }
        ensures named { OnOk result (F.has_names (files_of self.new) ≡ true) }
        ensures refused { sync_may_lie_of self.old ≡ true → IsErr result }
        ensures sticky { OnErr result (sync_may_lie_of self.new ≡ true) }
    {
        if self.sync_may_lie {
            return Err(fail(&mut self.failed));
        }
        match sync_with_names(&mut self.files, area, self.names_synced) {
            Ok(()) => {
                self.names_synced = true;
                Ok(())
            }
            Err(_) => {
                self.sync_may_lie = true;
                Err(fail(&mut self.failed))
            }
        }
    }
}
