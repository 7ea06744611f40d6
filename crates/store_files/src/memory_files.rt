//! Files in memory, whose calls do less than they are asked.

ghost use Rattle.store_memory.specs.Memory.{left_since_of, may_leave_of, moment_of, reads_of};
ghost use Rattle.store_files.specs.Files.{disk_in, has_names_in, most_in, sync_may_lie_in};
ghost use Rattle.std.specs.IoError.{error_kind};
ghost use Rattle.std.specs.declared.io.ErrorKind.TheVariants.{Other};
ghost use Rattle.std.specs.Prelude.{◌≡◌, false};

use std::io::{self, ErrorKind};
use store_disk::disk_files::DiskFiles;
use store_memory::memory_disk::MemoryDisk;
use store_model::area::Area;
use store_model::disk::Disk;

/// Files over the areas of a disk in memory. A call reads or writes at most so many bytes. Where the disk fails a write
/// or a sync, each later sync lies: it answers `Ok`, and makes nothing last.
#[derive(Drop)]
pub struct MemoryFiles {
    disk: MemoryDisk,
    most: usize,
    sync_may_lie: bool,
    has_names: bool,
}

impl MemoryFiles {
    /// Files with the bytes of a disk, of which a call reads or writes at most so many.
    pub fn new(disk: MemoryDisk, most: usize) -> MemoryFiles
        ensures disk { disk_in result ≡ disk }
        ensures most { most_in result ≡ most }
        ensures sync { sync_may_lie_in result ≡ false }
    {
        MemoryFiles {
            disk,
            most,
            sync_may_lie: false,
            has_names: false,
        }
    }

    /// The disk, which has the files' bytes and the list of their calls.
    pub fn disk(&self) -> &MemoryDisk
        ensures { result.now ≡ disk_in self.now }
    {
        &self.disk
    }

    /// The disk.
    pub fn into_disk(self) -> MemoryDisk
        ensures { result ≡ disk_in self }
    {
        self.disk
    }

    /// A call that failed, after which a sync may lie.
    fn lose(&mut self) -> io::Error
        ensures disk { disk_in self.new ≡ disk_in self.old }
        ensures kind { error_kind result ≡ Other }
        ensures named { has_names_in self.new ≡ has_names_in self.old }
    {
        self.sync_may_lie = true;
        ErrorKind::Other.into()
    }
}

impl DiskFiles for MemoryFiles {
    ghost use Rattle.store_memory.specs.CallLaws.{here_now, none_but_now, reads_stay_left};
    ghost use Rattle.store_memory.specs.Memory.{calls_of, first_of};
    ghost use Rattle.store_model.specs.Image.{Image, bytes_of, changed, put};

    ghost follows_model = { Unit {0} };

    ghost reads = { λ f. reads_of (disk_in f) };

    ghost may_leave = { λ f c. may_leave_of (disk_in f) c };

    ghost moment = { λ f. moment_of (disk_in f) };

    ghost left_since = { λ f t c. left_since_of (disk_in f) t c };

    ghost sync_may_lie = { sync_may_lie_in };

    ghost has_names = { has_names_in };

    ghost reads_are_left = { λ f. reads_stay_left (first_of (disk_in f)) (calls_of (disk_in f)) };

    ghost counts_now = { λ f t c le now. here_now (first_of (disk_in f)) (calls_of (disk_in f)) t c le now };

    ghost only_now = { λ f c left. none_but_now (first_of (disk_in f)) (calls_of (disk_in f)) c left };

    fn length(&mut self, area: Area) -> io::Result<u64> {
        match self.disk.length(area) {
            Ok(n) => Ok(n),
            Err(_) => Err(ErrorKind::Other.into()),
        }
    }

    fn read_at(&mut self, area: Area, at: u64, into: &mut [u8]) -> io::Result<usize> {
        let size = self.disk.held().bytes(area).len() as u64;
        let n = size
            .saturating_sub(at)
            .min(into.len().min(self.most) as u64) as usize;
        match self.disk.read(area, at.min(size), &mut into[..n]) {
            Ok(()) => Ok(n),
            Err(_) => Err(ErrorKind::Other.into()),
        }
    }

    fn write_at(&mut self, area: Area, at: u64, bytes: &[u8]) -> io::Result<usize> {
        let n = bytes.len().min(self.most);
        match self.disk.write(area, at, &bytes[..n]) {
            Ok(()) => Ok(n),
            Err(_) => Err(self.lose()),
        }
    }

    fn set_length(&mut self, area: Area, size: u64) -> io::Result<()> {
        match self.disk.cut(area, size) {
            Ok(()) => Ok(()),
            Err(_) => Err(ErrorKind::Other.into()),
        }
    }

    fn sync(&mut self, area: Area) -> io::Result<()> {
        if self.sync_may_lie {
            return Ok(());
        }
        match self.disk.sync(area) {
            Ok(()) => Ok(()),
            Err(_) => Err(self.lose()),
        }
    }

    fn sync_names(&mut self) -> io::Result<()> {
        self.has_names = true;
        Ok(())
    }
}
