//! A script whose container, servers and disk are refused memory: `tests/refused_memory` refuses one request after
//! another. And one whose host has no memory for one of its calls. The disk wants memory for the list of its calls:
//! there a want is a call that failed.

use crate::disks::{BEFORE, INSERTED, SCRIPT, START, run_script_on};
use crate::servers::{Arrives, Servers};
use object_core::tally::Tally;
use script_container::fault::ScriptFault;
use script_run::script::run_script;
use std::alloc::Global;
use std::process::Abort;
use store_memory::memory_disk::{Faults, MemoryDisk};
use store_model::fault::StoreFault;
use test_marks::marks::{begin, end};
use text_io::input::InputFault;
use text_io::lines::SyntaxFault;

/// What is written behind that where all is done.
const SAVED: &str = "ok\n";

/// What is done where the session is raised by the second start, so that there is one server.
const ALONE: &str =
    "new d.ole 40 12\ninsert 1 note 0 0 20 5\ninsert 1 note 0 6 20 5\nstart\nrun 1 1\nedit 1 i 0 a\nkill 1\nsave 1\n";

/// What another script finds in the file, and what it shows where there is nothing in it.
const LOOK: &str = "open d.ole 40 12\nscreen 1\n";

const NOTHING: &str = "NoSuch\nNoSuch\n";

/// Room for all that is written.
const ROOM: usize = 4096;

/// The most calls of a host that are tried.
const MOST_CALLS: u64 = 300;

/// How a run ended.
#[derive(Clone, Copy, PartialEq, Eq)]
enum End {
    /// As wanted.
    Saved,
    /// The last save was lost.
    Lost,
    /// The save that was to raise the session was lost, and the script went on with one server.
    Unraised,
    /// The script ended, since it isn't known what the file holds.
    Unknown,
    /// It ended for want of memory.
    Lacking,
    /// None of these.
    Wrong,
}

/// How a save is told that was lost for want of memory, where so many calls of the disk failed.
fn loss(failures: u64) -> &'static [u8] {
    if failures == 0 {
        b"NoMemory\n".as_slice()
    } else {
        b"Device\n".as_slice()
    }
}

/// What was written behind this, if that was.
fn behind<'a>(written: &'a [u8], before: &str) -> &'a [u8] {
    if written.starts_with(before.as_bytes()) {
        &written[before.len()..]
    } else {
        b"".as_slice()
    }
}

/// Whether this is written where the script doesn't end before, or a beginning of it.
fn is_part(written: &[u8]) -> bool {
    BEFORE.as_bytes().starts_with(written) || behind(written, BEFORE) == SAVED.as_bytes()
}

/// How a run ended that wrote this and told so, and of whose disk so many calls failed.
fn end_of(written: &[u8], told: &Result<(), ScriptFault>, failures: u64) -> End {
    let last = behind(written, BEFORE);
    match told {
        Ok(()) if last == SAVED.as_bytes() => End::Saved,
        Ok(()) if last == loss(failures) => End::Lost,
        Ok(()) if behind(written, INSERTED).starts_with(loss(failures)) => End::Unraised,
        Err(ScriptFault::Input(InputFault::NoMemory)) if written.is_empty() => End::Lacking,
        Err(ScriptFault::Line(_, SyntaxFault::NoMemory)) if written.is_empty() => End::Lacking,
        Err(ScriptFault::NoMemory) if is_part(written) => End::Lacking,
        Err(ScriptFault::File(_, StoreFault::Device)) if failures > 0 && is_part(written) => {
            End::Unknown
        }
        _ => End::Wrong,
    }
}

/// What another script shows of the file on a disk.
fn look(rt: &impl Abort, alloc: Global, disk: MemoryDisk) -> Vec<u8> {
    let tally = Tally::new(alloc).expect(rt, "memory");
    let mut host = Servers::with_disk(alloc, tally, disk);
    let mut shown = Vec::new(alloc);
    let told = run_script(alloc, &mut host, &mut LOOK.as_bytes(), &mut shown);
    assert!(rt; told.is_ok(), "a file that is looked at");
    shown
}

/// What is shown of the file where its session is raised, where it is saved, and where it is saved with one server. A
/// save without memory for the sectors that an earlier one wrote lays them out anew, so their bytes aren't compared.
#[derive(Drop)]
struct Shown {
    old: Vec<u8>,
    new: Vec<u8>,
    alone: Vec<u8>,
}

/// What is shown of the file behind a script.
fn shown_behind(rt: &impl Abort, alloc: Global, script: &str) -> Vec<u8> {
    let shown = look(
        rt,
        alloc,
        run_script_on(rt, alloc, script, 0, Faults::Never).disk,
    );
    assert!(rt; shown.len() > 400, "a file with two notes");
    shown
}

fn all_shown(rt: &impl Abort, alloc: Global) -> Shown {
    Shown {
        old: shown_behind(rt, alloc, START),
        new: shown_behind(rt, alloc, SCRIPT),
        alone: shown_behind(rt, alloc, ALONE),
    }
}

/// Whether a run that ended so may leave a file of which this is shown.
fn may_leave(end: End, found: &[u8], shown: &Shown) -> bool {
    let is_new = found == shown.new.as_slice();
    let is_old = found == shown.old.as_slice();
    let is_none = found == NOTHING.as_bytes();
    let is_alone = found == shown.alone.as_slice();
    match end {
        End::Saved => is_new,
        End::Lost => is_old,
        End::Unraised => is_alone,
        End::Unknown | End::Lacking => is_none || is_old || is_new,
        End::Wrong => false,
    }
}

/// Plays the script over a new file, and a host that has no memory for this of its calls. Tells how it ended, whether
/// that call was made, and how the disk was left. Each object is dropped once.
fn play(rt: &impl Abort, alloc: Global, lacking: u64, is_marked: bool) -> (End, bool, MemoryDisk) {
    let tally = Tally::new(alloc).expect(rt, "memory");
    let shared = tally.share().expect(rt, "memory");
    let mut host = Servers::new(alloc, shared, u64::MAX, Arrives::All);
    host.lack_at(lacking);
    let mut written = Vec::with_capacity(alloc, ROOM).expect(rt, "memory");
    if is_marked {
        begin(alloc);
    }
    let told = run_script(alloc, &mut host, &mut SCRIPT.as_bytes(), &mut written);
    end(alloc);
    let (made, has_lacked) = (host.made(), host.has_lacked());
    let disk = host.into_disk().expect(rt, "a disk that was given back");
    assert!(rt; tally.count() == made, "{made} made");
    (end_of(&written, &told, disk.failures()), has_lacked, disk)
}

#[test]
fn a_script_ends_for_want_of_memory_or_as_wanted(rt: HostRuntime) {
    let alloc = rt.alloc();
    let shown = all_shown(&rt, alloc);
    let (end, _, disk) = play(&rt, alloc, u64::MAX, true);
    assert!(rt; may_leave(end, &look(&rt, alloc, disk), &shown));
}

#[test]
fn a_host_without_memory_ends_the_script(rt: HostRuntime) {
    let alloc = rt.alloc();
    let shown = all_shown(&rt, alloc);
    for calls in 0..MOST_CALLS {
        let (end, has_lacked, disk) = play(&rt, alloc, calls, false);
        let want = if has_lacked { End::Lacking } else { End::Saved };
        assert!(rt; end == want, "call {calls}");
        assert!(rt;
            may_leave(end, &look(&rt, alloc, disk), &shown),
            "call {calls}"
        );
        if !has_lacked {
            assert!(rt; calls > 20, "{calls} calls");
            return;
        }
    }
    assert!(rt; false, "a run whose host has memory");
}
