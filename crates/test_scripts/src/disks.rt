//! A save of what servers hold, whose disk fails at each call in turn: once, or for good. What a crash then leaves of
//! the disk is the document of the container's session, or the one that was saved. And the save that raises that
//! session, whose disk fails so.

use crate::servers::{Arrives, Servers};
use object_core::tally::Tally;
use script_container::fault::ScriptFault;
use script_run::script::run_script;
use std::alloc::Global;
use std::process::Abort;
use store_core::store::Store;
use store_memory::memory_disk::{Faults, MemoryDisk};
use store_model::fault::StoreFault;
use test_disks::images::{PENDING, Pending, crashed};

/// Two notes, each in a server of its own, one of which is ended before the save.
pub(crate) const SCRIPT: &str =
    "new d.ole 40 12\ninsert 1 note 0 0 20 5\ninsert 1 note 0 6 20 5\nstart\nstart\nrun 1 1\nrun 2 2\nedit 1 i 0 a\nedit 2 i 0 b\nkill 1\nsave 1\n";

/// The same, up to the save that raises the session.
pub(crate) const START: &str =
    "new d.ole 40 12\ninsert 1 note 0 0 20 5\ninsert 1 note 0 6 20 5\nstart\nstart\n";

/// What is written before it is saved.
pub(crate) const BEFORE: &str =
    "frame 1\nobject 1\nobject 2\nserver 1\nserver 2\nok\nok\nok\nok\nok\n";

/// The most calls of a disk that are tried.
const MOST_CALLS: u64 = 300;

/// How a run ended.
#[derive(Clone, Copy, PartialEq, Eq)]
enum End {
    /// The save was told.
    Saved,
    /// It was told that the save is lost.
    Lost,
    /// The script ended, since it isn't known what the file holds.
    Unknown,
    /// None of these.
    Wrong,
}

/// How a run ended that wrote this and told so.
fn end_of(written: &[u8], told: &Result<(), ScriptFault>) -> End {
    let before = BEFORE.as_bytes();
    match told {
        Ok(()) if !written.starts_with(before) => End::Wrong,
        Ok(()) if &written[before.len()..] == b"ok\n".as_slice() => End::Saved,
        Ok(()) if &written[before.len()..] == b"Device\n".as_slice() => End::Lost,
        Err(ScriptFault::File(_, StoreFault::Device)) if before.starts_with(written) => {
            End::Unknown
        }
        _ => End::Wrong,
    }
}

/// What a script is to write, how it ends, how many objects it makes, and its file's disk. Each object is dropped once.
#[derive(Drop)]
pub(crate) struct Ran {
    pub(crate) written: Vec<u8>,
    pub(crate) told: Result<(), ScriptFault>,
    pub(crate) made: u32,
    pub(crate) disk: MemoryDisk,
}

/// Runs a script over a new file, whose calls fail so once its disk was given so often.
pub(crate) fn run_script_on(
    rt: &impl Abort,
    alloc: Global,
    script: &str,
    given: u32,
    faults: Faults,
) -> Ran {
    let tally = Tally::new(alloc).expect(rt, "memory");
    let shared = tally.share().expect(rt, "memory");
    let mut host = Servers::new(alloc, shared, u64::MAX, Arrives::All);
    host.fail_disk(given, faults);
    let mut written = Vec::new(alloc);
    let told = run_script(alloc, &mut host, &mut script.as_bytes(), &mut written);
    let made = host.made();
    let disk = host.into_disk().expect(rt, "a disk that was given back");
    assert!(rt; tally.count() == made, "{made} made");
    Ran {
        written,
        told,
        made,
        disk,
    }
}

/// How the script ends over a new file whose calls fail so from the second save on, and the file's disk.
fn run(rt: &impl Abort, alloc: Global, faults: Faults) -> (End, MemoryDisk) {
    let Ran {
        written,
        told,
        made,
        disk,
    } = run_script_on(rt, alloc, SCRIPT, 1, faults);
    assert!(rt; made == 2, "{made} made");
    (end_of(&written, &told), disk)
}

/// The document that a store finds on a disk of which no call fails any more.
pub(crate) fn document(rt: &impl Abort, alloc: Global, disk: MemoryDisk) -> Vec<u8> {
    let mut disk = disk;
    disk.set_faults(Faults::Never);
    match Store::open(alloc, disk) {
        Ok(mut store) => store.current().expect(rt, "a document"),
        Err(_) => {
            assert!(rt; false, "a store that opens");
            Vec::new(alloc)
        }
    }
}

/// The document from before a save, and the one that is saved.
#[derive(Drop)]
pub(crate) struct Documents {
    old: Vec<u8>,
    new: Vec<u8>,
}

impl Documents {
    /// Whether a document is the one from before.
    pub(crate) fn is_old(&self, found: &[u8]) -> bool {
        found == self.old.as_slice()
    }

    /// Whether a document is the one that is saved.
    pub(crate) fn is_new(&self, found: &[u8]) -> bool {
        found == self.new.as_slice()
    }
}

/// Whether a document is what a run that ended so may leave.
fn may_leave(end: End, found: &[u8], documents: &Documents) -> bool {
    match end {
        End::Saved => documents.is_new(found),
        End::Lost => documents.is_old(found),
        End::Unknown => documents.is_old(found) || documents.is_new(found),
        End::Wrong => false,
    }
}

/// Whether each crash of a disk leaves what a run that ended so may leave, whatever becomes of what was pending.
fn survives(
    rt: &impl Abort,
    alloc: Global,
    end: End,
    left: &MemoryDisk,
    documents: &Documents,
) -> bool {
    let calls = left.calls().len();
    for of_document in PENDING {
        for of_journal in PENDING {
            let disk = crashed(alloc, left, calls, of_document, of_journal).expect(rt, "memory");
            if !may_leave(end, &document(rt, alloc, disk), documents) {
                return false;
            }
        }
    }
    true
}

/// How often the script ended so where one call fails after another, or each from one on: saved, lost, unknown.
fn count(rt: &impl Abort, alloc: Global, once: bool, documents: &Documents) -> [u64; 3] {
    let mut ends = [0u64; 3];
    for calls in 0..MOST_CALLS {
        let faults = if once {
            Faults::Once(calls)
        } else {
            Faults::From(calls)
        };
        let (end, left) = run(rt, alloc, faults);
        assert!(rt;
            once || survives(rt, alloc, end, &left, documents),
            "a crash after {calls} calls"
        );
        let whole = left.failures() == 0;
        assert!(rt;
            may_leave(end, &document(rt, alloc, left), documents),
            "after {calls} calls"
        );
        match end {
            End::Saved => ends[0] = ends[0].saturating_add(1),
            End::Lost => ends[1] = ends[1].saturating_add(1),
            _ => ends[2] = ends[2].saturating_add(1),
        }
        if whole {
            return ends;
        }
    }
    [0; 3]
}

/// The documents of the whole script: that of the session, and those of its save.
pub(crate) fn made_documents(rt: &impl Abort, alloc: Global) -> Documents {
    let begun = run_script_on(rt, alloc, START, 0, Faults::Never);
    let (_, disk) = run(rt, alloc, Faults::Never);
    let made = Documents {
        old: document(rt, alloc, begun.disk),
        new: document(rt, alloc, disk),
    };
    let (old, new) = (made.old.len(), made.new.len());
    assert!(rt; old == 3_584 && new == 4_608, "{old} {new}");
    made
}

#[test]
fn a_save_of_two_servers_is_as_it_is_told_whichever_call_of_its_disk_fails(rt: HostRuntime) {
    let alloc = rt.alloc();
    let documents = made_documents(&rt, alloc);
    let once = count(&rt, alloc, true, &documents);
    assert!(rt; once[0] > 1 && once[1] > 1, "{once:?}");
    let stopped = count(&rt, alloc, false, &documents);
    assert!(rt;
        stopped[0] == 1 && stopped[1] == 0 && stopped[2] > 5,
        "{stopped:?}"
    );
}

/// What is written before the session is raised, where it is and two servers start, and where it is lost and then
/// raised again.
pub(crate) const INSERTED: &str = "frame 1\nobject 1\nobject 2\n";

const TWO: &str = "server 1\nserver 2\n";

const AGAIN: &str = "Device\nserver 1\n";

/// How two starts end that wrote this and told so: the first one may be lost, and the second one then tries again.
fn start_of(written: &[u8], told: &Result<(), ScriptFault>) -> End {
    let before = INSERTED.as_bytes();
    match told {
        Ok(()) if !written.starts_with(before) => End::Wrong,
        Ok(()) if &written[before.len()..] == TWO.as_bytes() => End::Saved,
        Ok(()) if &written[before.len()..] == AGAIN.as_bytes() => End::Lost,
        Err(ScriptFault::File(_, StoreFault::Device)) if written == before => End::Unknown,
        _ => End::Wrong,
    }
}

/// Whether the session is in the document of a disk, or is none where the script ended before that is known.
fn is_raised(rt: &impl Abort, alloc: Global, end: End, disk: MemoryDisk, raised: &[u8]) -> bool {
    let found = document(rt, alloc, disk);
    match end {
        End::Saved | End::Lost => found.as_slice() == raised,
        End::Unknown => found.is_empty() || found.as_slice() == raised,
        End::Wrong => false,
    }
}

/// How often two starts ended so where one call of the disk fails after another, or each from one on: raised at once,
/// at the second start, unknown.
fn count_starts(rt: &impl Abort, alloc: Global, once: bool, raised: &[u8]) -> [u64; 3] {
    let mut ends = [0u64; 3];
    for calls in 0..MOST_CALLS {
        let faults = if once {
            Faults::Once(calls)
        } else {
            Faults::From(calls)
        };
        let ran = run_script_on(rt, alloc, START, 0, faults);
        let end = start_of(&ran.written, &ran.told);
        let whole = ran.disk.failures() == 0;
        assert!(rt;
            is_raised(rt, alloc, end, ran.disk, raised),
            "after {calls} calls"
        );
        match end {
            End::Saved => ends[0] = ends[0].saturating_add(1),
            End::Lost => ends[1] = ends[1].saturating_add(1),
            _ => ends[2] = ends[2].saturating_add(1),
        }
        if whole {
            return ends;
        }
    }
    [0; 3]
}

#[test]
fn a_session_that_is_lost_is_raised_by_the_next_start(rt: HostRuntime) {
    let alloc = rt.alloc();
    let raised = made_documents(&rt, alloc).old;
    let once = count_starts(&rt, alloc, true, &raised);
    assert!(rt; once[0] > 1 && once[1] > 1 && once[2] == 0, "{once:?}");
    let stopped = count_starts(&rt, alloc, false, &raised);
    assert!(rt;
        stopped[0] == 1 && stopped[1] == 0 && stopped[2] > 5,
        "{stopped:?}"
    );
}

#[test]
fn two_starts_raise_the_session_once(rt: HostRuntime) {
    let alloc = rt.alloc();
    let tally = Tally::new(alloc).expect(&rt, "memory");
    let mut host = Servers::new(alloc, tally, u64::MAX, Arrives::All);
    let mut written = Vec::new(alloc);
    let told = run_script(alloc, &mut host, &mut START.as_bytes(), &mut written);
    assert!(rt; told.is_ok() && written.ends_with(TWO.as_bytes()) && host.given() == 1);
}
