//! A save whose disk fails at each call in turn.

use crate::files::Files;
use script_container::fault::ScriptFault;
use script_run::script::run_script;
use std::alloc::{AllocError, Global};
use std::process::Abort;
use store_core::store::Store;
use store_memory::memory_disk::{Faults, MemoryDisk};
use store_model::fault::StoreFault;

/// A frame with a note is saved to a new file, with its first session. No server is needed for that.
const SCRIPT: &str = "new d.ole 40 12\ninsert 1 note 0 0 20 5\nsession\n";

/// The most calls of a disk that are tried.
const MOST_CALLS: u64 = 200;

fn fresh(alloc: Global) -> Result<MemoryDisk, AllocError> {
    MemoryDisk::new(alloc, Vec::new(alloc), Vec::new(alloc))
}

/// The document of a disk, once nothing fails any more.
fn document(alloc: Global, disk: MemoryDisk) -> Result<Vec<u8>, StoreFault> {
    let mut disk = disk;
    disk.set_faults(Faults::Never);
    match Store::open(alloc, disk) {
        Ok(mut store) => store.current(),
        Err(refused) => Err(refused.fault),
    }
}

/// What the script writes over a new file whose calls fail so, whether it is carried out, and the file's disk.
fn run(
    rt: &impl Abort,
    alloc: Global,
    faults: Faults,
) -> (Vec<u8>, Result<(), ScriptFault>, MemoryDisk) {
    let mut host = Files::new(alloc, fresh(alloc).expect(rt, "memory"), faults);
    let mut written = Vec::new(alloc);
    let told = run_script(alloc, &mut host, &mut SCRIPT.as_bytes(), &mut written);
    let disk = host.into_disk().expect(rt, "a disk that was given back");
    (written, told, disk)
}

/// How a run ended.
#[derive(Clone, Copy, PartialEq, Eq)]
enum End {
    /// The save was told, and its file is there.
    Saved,
    /// It was told that the save is lost, and there is no file.
    Lost,
    /// The script ended, since it isn't known what the file holds; it is there, or it isn't.
    Unknown,
    /// None of these.
    Wrong,
}

/// How a run ended that told so, and left this document.
fn end_of(written: &[u8], told: &Result<(), ScriptFault>, found: &[u8], saved: &[u8]) -> End {
    match told {
        Ok(()) if written.ends_with(b"\nok\n") && found == saved => End::Saved,
        Ok(()) if written.ends_with(b"\nDevice\n") && found.is_empty() => End::Lost,
        Err(ScriptFault::File(_, StoreFault::Device)) if found.is_empty() || found == saved => {
            End::Unknown
        }
        _ => End::Wrong,
    }
}

/// How the script ends over a file whose calls fail so, and whether none failed.
fn run_failing(rt: &impl Abort, alloc: Global, faults: Faults, saved: &[u8]) -> (End, bool) {
    let (written, told, disk) = run(rt, alloc, faults);
    let whole = disk.failures() == 0;
    let found = document(alloc, disk).expect(rt, "a document");
    (end_of(&written, &told, &found, saved), whole)
}

/// How often the script ended so where one call fails after another, or each from one on: saved, lost, unknown.
fn count(rt: &impl Abort, alloc: Global, once: bool, saved: &[u8]) -> [u64; 3] {
    let mut ends = [0u64; 3];
    for calls in 0..MOST_CALLS {
        let faults = if once {
            Faults::Once(calls)
        } else {
            Faults::From(calls)
        };
        let (end, whole) = run_failing(rt, alloc, faults, saved);
        match end {
            End::Saved => ends[0] = ends[0].saturating_add(1),
            End::Lost => ends[1] = ends[1].saturating_add(1),
            End::Unknown => ends[2] = ends[2].saturating_add(1),
            End::Wrong => assert!(rt; false, "after {calls} calls"),
        }
        if whole {
            return ends;
        }
    }
    [0; 3]
}

#[test]
fn a_save_is_as_it_is_told_whichever_call_of_its_disk_fails(rt: HostRuntime) {
    let alloc = rt.alloc();
    let (written, told, disk) = run(&rt, alloc, Faults::Never);
    assert!(rt; told.is_ok() && written.as_slice() == b"frame 1\nobject 1\nok\n".as_slice());
    let saved = document(alloc, disk).expect(&rt, "a document");
    assert!(rt; !saved.is_empty());
    let once = count(&rt, alloc, true, &saved);
    assert!(rt; once[0] > 1 && once[1] > 1 && once[2] == 0);
    let stopped = count(&rt, alloc, false, &saved);
    assert!(rt; stopped[0] == 1 && stopped[1] == 0 && stopped[2] > 5);
}
