//! A document of many notes that is saved again: few blocks are written, and nothing of what is gone stays in the file.

use crate::servers::Servers;
use object_core::tally::Tally;
use script_run::script::run_script;
use std::alloc::Global;
use std::process::Abort;
use store_memory::memory_disk::MemoryDisk;
use store_model::area::Area;

/// A text is put before that of a note, which then takes one mini sector more.
const GROW: &str =
    "open d.ole 82 10\nstart\nrun 30 1\nedit 30 i 0 more of \nclose 30 save\nsave 1\nscreen 1\n";

/// What another script finds.
const LOOK: &str = "open d.ole 82 10\nscreen 1\n";

/// A note goes, once the next session is there.
const DELETE: &str = "open d.ole 82 10\nsession\ndelete 10\nsave 1\nscreen 1\n";

fn add(rt: &impl Abort, script: &mut Vec<u8>, text: &[u8]) {
    script.extend_from_slice(text).expect(rt, "memory");
}

/// Adds a number below 100, in two digits or one, and a text.
fn add_number(rt: &impl Abort, script: &mut Vec<u8>, number: u8, text: &[u8]) {
    let tens = number / 10 % 10;
    if tens > 0 {
        script.push(b'0' + tens).expect(rt, "memory");
    }
    script.push(b'0' + number % 10).expect(rt, "memory");
    add(rt, script, text);
}

/// Adds the lines that insert a note at a place of its own, and give it a text of some 60 characters that begins with
/// its number.
fn add_note(rt: &impl Abort, script: &mut Vec<u8>, number: u8) {
    let place = number.saturating_sub(1);
    add(rt, script, b"insert 1 note ");
    add_number(rt, script, place % 8 * 10 + 1, b" ");
    add_number(rt, script, place / 8 % 8 + 1, b" 9 1\nrun ");
    add_number(rt, script, number, b" 1\nedit ");
    add_number(rt, script, number, b" i 0 note-");
    add_number(
        rt,
        script,
        number,
        b"-, which is as long as it takes to fill a mini sector\nclose ",
    );
    add_number(rt, script, number, b" save\n");
}

/// A script that saves a document of 64 notes.
fn first(rt: &impl Abort, alloc: Global) -> Vec<u8> {
    let mut script = Vec::new(alloc);
    add(rt, &mut script, b"new d.ole 82 10\nstart\n");
    for number in 1..=64 {
        add_note(rt, &mut script, number);
    }
    add(rt, &mut script, b"save 1\n");
    script
}

/// What a script writes, and how it leaves a disk.
fn run(rt: &impl Abort, alloc: Global, script: &[u8], disk: MemoryDisk) -> (Vec<u8>, MemoryDisk) {
    let tally = Tally::new(alloc).expect(rt, "memory");
    let shared = tally.share().expect(rt, "memory");
    let mut host = Servers::with_disk(alloc, shared, disk);
    let mut written = Vec::new(alloc);
    let mut reader = script;
    let told = run_script(alloc, &mut host, &mut reader, &mut written);
    assert!(rt; told.is_ok(), "a script that ends");
    (
        written,
        host.into_disk().expect(rt, "a disk that was given back"),
    )
}

/// How many blocks stand in a disk's closed journal.
fn blocks(disk: &MemoryDisk) -> u32 {
    let journal = disk.held().bytes(Area::Journal);
    if journal.len() < 13 || journal[0] != 0 {
        return 0;
    }
    journal[9] as u32 + 256 * journal[10] as u32
}

/// Whether a text stands in the document of a disk.
fn stands(disk: &MemoryDisk, text: &[u8]) -> bool {
    let file = disk.held().bytes(Area::Document);
    for at in 0..file.len() {
        if file[at..].starts_with(text) {
            return true;
        }
    }
    false
}

/// What stands behind the first line.
fn behind_line(written: &[u8]) -> &[u8] {
    for at in 0..written.len() {
        if written[at] == b'\n' {
            return &written[at + 1..];
        }
    }
    &[]
}

/// Whether another script finds what a script showed at its end.
fn is_found(rt: &impl Abort, alloc: Global, shown: &[u8], disk: MemoryDisk) -> MemoryDisk {
    let (found, disk) = run(rt, alloc, LOOK.as_bytes(), disk);
    let screen = behind_line(&found);
    assert!(rt; screen.len() > 800 && shown.ends_with(screen));
    disk
}

#[test]
fn a_save_changes_few_blocks_and_leaves_nothing(rt: HostRuntime) {
    let alloc = rt.alloc();
    let empty = MemoryDisk::new(alloc, Vec::new(alloc), Vec::new(alloc)).expect(&rt, "memory");
    let (_, disk) = run(&rt, alloc, &first(&rt, alloc), empty);
    let all = blocks(&disk);
    let (shown, disk) = run(&rt, alloc, GROW.as_bytes(), disk);
    let few = blocks(&disk);
    assert!(rt; all > 100 && few > 0 && few < 12, "{all} {few}");
    let disk = is_found(&rt, alloc, &shown, disk);
    assert!(rt; stands(&disk, b"more of note-30-") && stands(&disk, b"note-10-"));
    let (shown, disk) = run(&rt, alloc, DELETE.as_bytes(), disk);
    let disk = is_found(&rt, alloc, &shown, disk);
    assert!(rt; !stands(&disk, b"note-10-") && stands(&disk, b"note-11-"));
}
