//! A script raises the session of its container before it starts a server.

use crate::files::Files;
use container_documents::reading::document_in;
use script_container::fault::ScriptFault;
use script_run::script::run_script;
use std::alloc::Global;
use std::process::Abort;
use store_memory::memory_disk::{Faults, MemoryDisk};
use store_model::area::Area;
use store_model::disk::Disk;

/// Commands for which no server has to start, and what is written of them.
const ROWS: &str = "\
start | NoSuch
save 1,saveas 1 e.ole | NoSuch,NoSuch
session | NoSuch
new d.ole 40 12,save 1,saveas 1 e.ole | frame 1,WrongState,WrongState
new d.ole 40 12,session,session | frame 1,ok,WrongState
new d.ole 40 12,session,save 1 | frame 1,ok,ok
";

/// A text whose lines end by commas, as one of lines.
fn lines(rt: &impl Abort, alloc: Global, text: &str) -> Vec<u8> {
    let mut lines = Vec::new(alloc);
    for byte in text.bytes() {
        let byte = if byte == b',' { b'\n' } else { byte };
        lines.push(byte).expect(rt, "memory");
    }
    lines.push(b'\n').expect(rt, "memory");
    lines
}

fn fresh(rt: &impl Abort, alloc: Global) -> MemoryDisk {
    MemoryDisk::new(alloc, Vec::new(alloc), Vec::new(alloc)).expect(rt, "memory")
}

/// What a script writes, how it ends, and how it leaves a disk.
fn run(
    rt: &impl Abort,
    alloc: Global,
    script: &[u8],
    disk: MemoryDisk,
) -> (Vec<u8>, Result<(), ScriptFault>, MemoryDisk) {
    let mut host = Files::new(alloc, disk, Faults::Never);
    let mut written = Vec::new(alloc);
    let mut reader = script;
    let told = run_script(alloc, &mut host, &mut reader, &mut written);
    let disk = host.into_disk().expect(rt, "a disk that was given back");
    (written, told, disk)
}

/// Whether a script without servers ends well, and writes what it is to write.
fn writes(rt: &impl Abort, alloc: Global, row: &str) -> bool {
    let Some((script, want)) = row.split_once(" | ") else {
        return false;
    };
    let script = lines(rt, alloc, script);
    let (written, told, _) = run(rt, alloc, &script, fresh(rt, alloc));
    told.is_ok() && written == lines(rt, alloc, want)
}

#[test]
fn nothing_is_saved_before_a_session_is_raised(rt: HostRuntime) {
    for row in ROWS.lines() {
        assert!(rt; writes(&rt, rt.alloc(), row), "{row}");
    }
}

/// The session in the document of a disk; 0 where it holds none.
fn session_on(rt: &impl Abort, alloc: Global, disk: &MemoryDisk) -> u32 {
    match document_in(alloc, disk.held().bytes(Area::Document)).expect(rt, "memory") {
        Some(document) => document.session(),
        None => 0,
    }
}

/// A script whose server isn't started, over what the one before left.
fn start_on(rt: &impl Abort, alloc: Global, script: &[u8], disk: MemoryDisk) -> MemoryDisk {
    let (written, told, disk) = run(rt, alloc, script, disk);
    let is_unstarted = matches!(told, Err(ScriptFault::Link(1)));
    assert!(rt; is_unstarted && written.starts_with(b"frame 1"));
    disk
}

#[test]
fn each_run_raises_the_session_that_the_file_has(rt: HostRuntime) {
    let alloc = rt.alloc();
    let disk = start_on(&rt, alloc, b"new d.ole 40 12\nstart\n", fresh(&rt, alloc));
    let first = session_on(&rt, alloc, &disk);
    let disk = start_on(&rt, alloc, b"open d.ole 40 12\nstart\n", disk);
    let second = session_on(&rt, alloc, &disk);
    assert!(rt; first == 1 && second == 2, "{first} {second}");
}
