//! Real files of which one call fails, in a folder of the test's own.

ghost use Rattle.store_model.specs.Image.{Image};
ghost use Rattle.std.specs.Prelude.{[], false, true};

use crate::folder::Folder;
use crate::wide::bytes_of;
use std::alloc::Global;
use std::fs;
use std::io::{self, ErrorKind};
use store_core::store::Store;
use store_disk::disk_files::DiskFiles;
use store_disk::file_disk::FileDisk;
use store_disk::opening::open;
use store_disk::system_files::SystemFiles;
use store_disk::system_names::SystemNames;
use store_model::area::Area;

/// More calls than any of these runs makes.
const MANY: u64 = 1_000;

/// The system's files, and how many calls there are until one fails. They claim nothing.
#[derive(Drop)]
struct FailingFiles {
    files: SystemFiles,
    calls_left: u64,
}

impl FailingFiles {
    /// Counts a call, one of which fails.
    fn call(&mut self) -> io::Result<()> {
        let left = self.calls_left;
        self.calls_left = left.wrapping_sub(1);
        if left == 0 {
            return Err(ErrorKind::Other.into());
        }
        Ok(())
    }
}

impl DiskFiles for FailingFiles {
    ghost follows_model = { ⊥ };

    ghost reads = { λ f. record { document = []; journal = [] } };

    ghost may_leave = { λ f c. Unit {0} };

    ghost moment = { λ f. 0 };

    ghost left_since = { λ f t c. Unit {0} };

    ghost sync_may_lie = { λ f. false };

    ghost has_names = { λ f. true };

    ghost reads_are_left = { λ f. tt };

    ghost counts_now = { λ f t c le now. tt };

    ghost only_now = { λ f c left. tt };

    fn length(&mut self, area: Area) -> io::Result<u64> {
        self.call()?;
        self.files.length(area)
    }

    fn read_at(&mut self, area: Area, at: u64, into: &mut [u8]) -> io::Result<usize> {
        match self.call() {
            Ok(()) => self.files.read_at(area, at, into),
            Err(error) => Err(error),
        }
    }

    fn write_at(&mut self, area: Area, at: u64, bytes: &[u8]) -> io::Result<usize> {
        match self.call() {
            Ok(()) => self.files.write_at(area, at, bytes),
            Err(error) => Err(error),
        }
    }

    fn set_length(&mut self, area: Area, size: u64) -> io::Result<()> {
        self.call()?;
        self.files.set_length(area, size)
    }

    fn sync(&mut self, area: Area) -> io::Result<()> {
        self.call()?;
        self.files.sync(area)
    }

    fn sync_names(&mut self) -> io::Result<()> {
        self.call()?;
        self.files.sync_names()
    }
}

/// Opens files of which the call after so many fails, and commits bytes. Whether all was done.
fn commit(alloc: Global, files: SystemFiles, calls_left: u64, bytes: &[u8]) -> bool {
    match Store::open(alloc, FileDisk::new(FailingFiles { files, calls_left })) {
        Ok(mut store) => store.commit(bytes).is_ok(),
        Err(_) => false,
    }
}

/// The document of a name, opened again.
fn document(rt: &HostRuntime, name: &str) -> Option<Vec<u8>> {
    let disk = open(&mut SystemNames::new(rt), name).ok()?;
    let mut store = Store::open(rt.alloc(), disk).ok()?;
    store.current().ok()
}

/// Whether a document is one of two, and the second where it has to be.
fn is_one(found: Option<Vec<u8>>, is_done: bool, old: &[u8], new: &[u8]) -> bool {
    match found {
        Some(bytes) => bytes.as_slice() == new || (!is_done && bytes.as_slice() == old),
        None => false,
    }
}

/// A commit from one document to another of which the call after so many fails. Whether it was done, where the document
/// is as it is told when it is opened again.
fn run(rt: &HostRuntime, folder: &Folder, calls_left: u64, old: &[u8], new: &[u8]) -> Option<bool> {
    fs::write(rt, folder.name(), old).ok()?;
    let is_done = match open(&mut SystemNames::new(rt), folder.name()) {
        Ok(disk) => commit(rt.alloc(), disk.into_files(), calls_left, new),
        Err(_) => return None,
    };
    if is_one(document(rt, folder.name()), is_done, old, new) {
        Some(is_done)
    } else {
        None
    }
}

/// With each number of calls before the one that fails, until none does.
fn are_either(rt: &HostRuntime, folder: &Folder, old: &[u8], new: &[u8]) -> bool {
    for calls_left in 0..MANY {
        match run(rt, folder, calls_left, old, new) {
            Some(true) => return calls_left > 0,
            Some(false) => {}
            None => return false,
        }
    }
    false
}

#[test]
fn real_files_whose_calls_fail_in_turn_leave_either_document(rt: HostRuntime) {
    let alloc = rt.alloc();
    let folder = Folder::new(&rt).expect(&rt, "a folder");
    let short = b"an old document";
    let long = bytes_of(alloc, 140_000, 0).expect(&rt, "memory");
    let other = bytes_of(alloc, 140_000, 9).expect(&rt, "memory");
    assert!(rt; are_either(&rt, &folder, short, &long));
    assert!(rt; are_either(&rt, &folder, &long, &other));
    assert!(rt; are_either(&rt, &folder, &long, short));
    assert!(rt; folder.is_removed(&rt));
}
