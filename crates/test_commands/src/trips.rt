//! Files made into folders, and folders into files.

use crate::memory::Memory;
use cfb_names::name::named;
use folder_commands::chosen::TreePath;
use folder_commands::extracting::extract_file;
use folder_commands::fault::ExtractFault;
use folder_commands::packing::pack_found;
use std::alloc::Global;
use std::process::Abort;
use write_described::making::make_file;

/// Storages in storages, long and short streams, a dot at a name's end, bytes that can't be seen.
const DESCRIPTION: &[u8] =
    b"storage S\nstorage S/T.\nfill S/T./Long 5000 61\nstream S/\\01Ole 0102\nstream A -\n";

pub(crate) fn file_of(rt: &impl Abort, alloc: Global) -> Vec<u8> {
    let mut text = DESCRIPTION;
    let mut file = Vec::new(alloc);
    make_file(alloc, &mut text, &mut file).expect(rt, "a file");
    file
}

fn extracted(rt: &impl Abort, alloc: Global, file: &[u8]) -> Memory {
    let mut folder = Memory::new(alloc, 10);
    let mut source = file;
    let count = extract_file(alloc, &mut source, &[], &mut folder).ok();
    assert!(rt; count == Some(6), "six entries");
    folder
}

fn packed(rt: &impl Abort, alloc: Global, folder: Memory) -> Vec<u8> {
    let Memory {
        class,
        state,
        found,
        ..
    } = folder;
    let mut file = Vec::new(alloc);
    let count = pack_found(alloc, class, state, found, &mut file).ok();
    assert!(rt; count == Some(file.len()), "a file");
    file
}

/// Whether a folder that takes so many entries stops the making of a file, at this path and behind these.
fn stops(alloc: Global, file: &[u8], room: usize, path: &[u8]) -> bool {
    let mut folder = Memory::new(alloc, room);
    let mut source = file;
    match extract_file(alloc, &mut source, &[], &mut folder) {
        Ok(_) => false,
        Err(stop) => match &stop.fault {
            ExtractFault::Entry(at, _) => stop.made == room && at.as_bytes() == path,
            _ => false,
        },
    }
}

#[test]
fn what_is_extracted_and_packed_is_the_same_file(rt: HostRuntime) {
    let file = file_of(&rt, rt.alloc());
    let folder = extracted(&rt, rt.alloc(), &file);
    let again = packed(&rt, rt.alloc(), folder);
    assert!(rt; again.as_slice() == file.as_slice(), "the same bytes");
}

#[test]
fn a_full_folder_stops_at_the_next_entry(rt: HostRuntime) {
    let file = file_of(&rt, rt.alloc());
    assert!(rt; stops(rt.alloc(), &file, 1, b"A".as_slice()), "at A");
    assert!(rt;
        stops(rt.alloc(), &file, 3, b"S/T\\2e".as_slice()),
        "at the storage"
    );
}

/// The path of one name.
fn path_of(rt: &impl Abort, alloc: Global, name: &[u8]) -> TreePath {
    let name = named(name).expect(rt, "a name");
    TreePath::new(alloc, &[name]).expect(rt, "memory")
}

/// How many entries are made of what stands at the path of a name, or the number of the path at which nothing does.
fn chosen(rt: &impl Abort, alloc: Global, file: &[u8], name: &[u8]) -> Result<usize, usize> {
    let mut folder = Memory::new(alloc, 10);
    let mut source = file;
    let paths = [path_of(rt, alloc, name)];
    match extract_file(alloc, &mut source, &paths, &mut folder) {
        Ok(count) => Ok(count),
        Err(stop) => match &stop.fault {
            ExtractFault::Missing(number, _) => Err(*number),
            _ => Err(99),
        },
    }
}

#[test]
fn what_stands_at_a_path_is_made(rt: HostRuntime) {
    let file = file_of(&rt, rt.alloc());
    assert!(rt;
        chosen(&rt, rt.alloc(), &file, b"a".as_slice()) == Ok(2),
        "A"
    );
    assert!(rt;
        chosen(&rt, rt.alloc(), &file, b"S".as_slice()) == Ok(5),
        "S"
    );
    assert!(rt;
        chosen(&rt, rt.alloc(), &file, b"T.".as_slice()) == Err(0),
        "T"
    );
}
