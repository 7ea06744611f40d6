//! A save whose disk stops for good at each call in turn: what a crash then leaves is opened by another script, and has
//! to be the document from before, or the one that was saved.

use crate::files::Files;
use script_run::script::run_script;
use std::alloc::{AllocError, Global};
use std::process::Abort;
use store_memory::memory_disk::{Faults, MemoryDisk};
use test_disks::images::{PENDING, Pending, crashed};

/// A file with one note.
const FIRST: &str = "new d.ole 40 12\ninsert 1 note 0 0 20 5\nsession\n";

/// A second note beside it, once the next session is there.
const SECOND: &str = "open d.ole 40 12\nsession\ninsert 1 note 0 6 20 5\nsave 1\n";

/// What another script finds.
const LOOK: &str = "open d.ole 40 12\n";

/// The most calls of a disk that are tried.
const MOST_CALLS: u64 = 200;

fn fresh(alloc: Global) -> Result<MemoryDisk, AllocError> {
    MemoryDisk::new(alloc, Vec::new(alloc), Vec::new(alloc))
}

/// What a script writes over a file whose disk's calls fail so, and the disk.
fn run(
    rt: &impl Abort,
    alloc: Global,
    script: &str,
    disk: MemoryDisk,
    faults: Faults,
) -> (Vec<u8>, MemoryDisk) {
    let mut host = Files::new(alloc, disk, faults);
    let mut written = Vec::new(alloc);
    let _told = run_script(alloc, &mut host, &mut script.as_bytes(), &mut written);
    (
        written,
        host.into_disk().expect(rt, "a disk that was given back"),
    )
}

/// What another script finds on what a crash leaves of a disk.
fn look(
    rt: &impl Abort,
    alloc: Global,
    left: &MemoryDisk,
    document: Pending,
    journal: Pending,
) -> Vec<u8> {
    let calls = left.calls().len();
    let disk = crashed(alloc, left, calls, document, journal).expect(rt, "memory");
    run(rt, alloc, LOOK, disk, Faults::Never).0
}

/// Two texts that a script may find, the second of which it has to find where a save was told.
#[derive(Drop)]
struct Texts {
    old: Vec<u8>,
    new: Vec<u8>,
}

/// Whether one of the texts is found, whatever becomes of what was pending on a disk.
fn finds_one(
    rt: &impl Abort,
    alloc: Global,
    left: &MemoryDisk,
    is_told: bool,
    texts: &Texts,
) -> bool {
    for document in PENDING {
        for journal in PENDING {
            let found = look(rt, alloc, left, document, journal);
            if found != texts.new && (is_told || found != texts.old) {
                return false;
            }
        }
    }
    true
}

/// A disk that has this document, and no call behind it.
fn settled(rt: &impl Abort, alloc: Global, disk: &MemoryDisk) -> MemoryDisk {
    let calls = disk.calls().len();
    crashed(alloc, disk, calls, Pending::Kept, Pending::Kept).expect(rt, "memory")
}

/// How often a script wrote all of this and how often it didn't, where its disk, which had that, stops after 0, 1, 2
/// ... calls. None where something else was found, or where it never came to an end without a failure.
fn stops(
    rt: &impl Abort,
    alloc: Global,
    script: &str,
    want: &[u8],
    from: &MemoryDisk,
    texts: &Texts,
) -> Option<[u64; 2]> {
    let mut ends = [0u64; 2];
    for calls in 0..MOST_CALLS {
        let disk = settled(rt, alloc, from);
        let (written, left) = run(rt, alloc, script, disk, Faults::From(calls));
        let is_told = written.as_slice() == want;
        if !finds_one(rt, alloc, &left, is_told, texts) {
            return None;
        }
        if is_told {
            ends[0] = ends[0].saturating_add(1);
        } else {
            ends[1] = ends[1].saturating_add(1);
        }
        if left.failures() == 0 {
            return Some(ends);
        }
    }
    None
}

#[test]
fn a_save_whose_disk_stops_leaves_the_file_from_before_or_the_saved_one(rt: HostRuntime) {
    let alloc = rt.alloc();
    let empty = fresh(alloc).expect(&rt, "memory");
    let nothing = look(&rt, alloc, &empty, Pending::Kept, Pending::Kept);
    let disk = settled(&rt, alloc, &empty);
    let (saved_first, first) = run(&rt, alloc, FIRST, disk, Faults::Never);
    assert!(rt; saved_first.as_slice() == b"frame 1\nobject 1\nok\n".as_slice());
    let one = look(&rt, alloc, &first, Pending::Lost, Pending::Lost);
    let disk = settled(&rt, alloc, &first);
    let (saved_second, second) = run(&rt, alloc, SECOND, disk, Faults::Never);
    assert!(rt; saved_second.as_slice() == b"frame 1 object 1\nok\nobject 2\nok\n".as_slice());
    let two = look(&rt, alloc, &second, Pending::Lost, Pending::Lost);
    assert!(rt; nothing.as_slice() == b"NoSuch\n".as_slice());
    assert!(rt; one.as_slice() == b"frame 1 object 1\n".as_slice() && one != two);
    let texts = Texts {
        old: nothing,
        new: one,
    };
    let ends = stops(&rt, alloc, FIRST, &saved_first, &empty, &texts);
    assert!(rt; ends.is_some_and(|it| it[0] == 1 && it[1] > 5));
    let texts = Texts {
        old: texts.new,
        new: two,
    };
    let ends = stops(&rt, alloc, SECOND, &saved_second, &first, &texts);
    assert!(rt; ends.is_some_and(|it| it[0] == 1 && it[1] > 5));
}
