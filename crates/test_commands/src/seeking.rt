//! Streams that are read where they lie in a file.

use crate::memory::Memory;
use cfb_names::name::{Name, named};
use folder_commands::extracting::extract_file;
use folder_commands::fault::ExtractFault;
use read_source::source::Source;
use std::alloc::Global;
use std::io::{self, ErrorKind};
use std::process::Abort;
use tell_files::fault::GetFault;
use tell_files::getting::get_stream;
use text_io::input::InputFault;
use tree_storage::fault::TreeFault;
use write_cleaned::cleaning::clean_file;
use write_cleaned::fault::CleanFault;
use write_described::making::make_file;

/// A long stream of two pieces, a short one and an empty one.
const DESCRIPTION: &[u8] = b"storage S\nfill S/Long 70000 61\nstream S/Short 0102\nstream A -\n";

/// Storages in one another, whose streams have the same names.
const NESTED: &[u8] =
    b"storage S\nstorage S/T\nstream S/T/A 010203\nstream S/A 0102\nstorage T\nstream T/A 01\n";

/// How many calls it takes to learn where a stream lies: one for the file's length, and one each for its header, the
/// FAT, the directory and the mini FAT.
const CALLS: usize = 5;

/// Bytes of which no more is told after so many calls.
#[derive(Drop)]
struct Few<'a> {
    bytes: &'a [u8],
    calls: usize,
}

impl<'a> Few<'a> {
    fn call(&mut self) -> io::Result<()> {
        if self.calls == 0 {
            return Err(io::Error::from(ErrorKind::Other));
        }
        self.calls -= 1;
        Ok(())
    }
}

impl<'a> Source for Few<'a> {
    fn size(&mut self) -> io::Result<u64> {
        self.call()?;
        self.bytes.size()
    }

    fn read_at(&mut self, at: u64, buf: &mut [u8]) -> io::Result<()> {
        self.call()?;
        self.bytes.read_at(at, buf)
    }
}

fn made(rt: &impl Abort, alloc: Global, description: &[u8]) -> Vec<u8> {
    let mut text = description;
    let mut file = Vec::new(alloc);
    make_file(alloc, &mut text, &mut file).expect(rt, "a file");
    file
}

fn names_of(rt: &impl Abort, alloc: Global, path: &str) -> Vec<Name> {
    let mut names = Vec::new(alloc);
    for word in path.split_whitespace() {
        let name = named(word.as_bytes()).expect(rt, "a name");
        names.push(name).expect(rt, "room");
    }
    names
}

fn got(
    alloc: Global,
    file: &[u8],
    path: &[Name],
    calls: usize,
    out: &mut Vec<u8>,
) -> Result<(), GetFault> {
    let mut source = Few { bytes: file, calls };
    get_stream(alloc, &mut source, path, out)
}

/// Whether so many calls give a stream of so many bytes.
fn is_got(
    rt: &impl Abort,
    alloc: Global,
    file: &[u8],
    path: &str,
    calls: usize,
    size: usize,
) -> bool {
    let names = names_of(rt, alloc, path);
    let mut out = Vec::new(alloc);
    match got(alloc, file, &names, calls, &mut out) {
        Ok(()) => out.len() == size,
        Err(_) => false,
    }
}

/// Whether a read fails after so many calls, and so many bytes were written before.
fn is_cut(
    rt: &impl Abort,
    alloc: Global,
    file: &[u8],
    path: &str,
    calls: usize,
    size: usize,
) -> bool {
    let names = names_of(rt, alloc, path);
    let mut out = Vec::new(alloc);
    match got(alloc, file, &names, calls, &mut out) {
        Err(GetFault::Input(InputFault::Unreadable)) => out.len() == size,
        _ => false,
    }
}

/// Whether the tree has no stream at a path.
fn is_missing(rt: &impl Abort, alloc: Global, file: &[u8], path: &str, fault: TreeFault) -> bool {
    let names = names_of(rt, alloc, path);
    let mut out = Vec::new(alloc);
    match got(alloc, file, &names, CALLS, &mut out) {
        Err(GetFault::Tree(told)) => told == fault,
        _ => false,
    }
}

/// Whether a file denotes no tree.
fn is_no_tree(rt: &impl Abort, alloc: Global, file: &[u8], path: &str) -> bool {
    let names = names_of(rt, alloc, path);
    let mut out = Vec::new(alloc);
    match got(alloc, file, &names, CALLS, &mut out) {
        Err(GetFault::Read(_)) => out.is_empty(),
        _ => false,
    }
}

#[test]
fn a_stream_is_read_where_it_lies(rt: HostRuntime) {
    let file = made(&rt, rt.alloc(), DESCRIPTION);
    assert!(rt; is_got(&rt, rt.alloc(), &file, "S Long", CALLS + 2, 70000));
    assert!(rt; is_got(&rt, rt.alloc(), &file, "S Short", CALLS + 1, 2));
    assert!(rt; is_got(&rt, rt.alloc(), &file, "A", CALLS, 0));
}

#[test]
fn a_path_leads_through_storages(rt: HostRuntime) {
    let file = made(&rt, rt.alloc(), NESTED);
    assert!(rt; is_got(&rt, rt.alloc(), &file, "S T A", CALLS + 1, 3));
    assert!(rt; is_got(&rt, rt.alloc(), &file, "s A", CALLS + 1, 2));
    assert!(rt; is_got(&rt, rt.alloc(), &file, "T a", CALLS + 1, 1));
    assert!(rt; is_missing(&rt, rt.alloc(), &file, "T T A", TreeFault::NotFound));
    assert!(rt; is_missing(&rt, rt.alloc(), &file, "S T", TreeFault::WrongKind));
    assert!(rt; is_missing(&rt, rt.alloc(), &file, "S A A", TreeFault::WrongKind));
}

#[test]
fn a_read_that_fails_cuts_a_stream(rt: HostRuntime) {
    let file = made(&rt, rt.alloc(), DESCRIPTION);
    assert!(rt; is_cut(&rt, rt.alloc(), &file, "S Long", CALLS + 1, 65536));
    assert!(rt; is_cut(&rt, rt.alloc(), &file, "S Long", CALLS, 0));
    assert!(rt; is_cut(&rt, rt.alloc(), &file, "S Short", CALLS, 0));
    assert!(rt; is_cut(&rt, rt.alloc(), &file, "A", CALLS - 1, 0));
}

#[test]
fn what_is_no_stream_is_not_read(rt: HostRuntime) {
    let mut file = made(&rt, rt.alloc(), DESCRIPTION);
    assert!(rt; is_missing(&rt, rt.alloc(), &file, "B", TreeFault::NotFound));
    assert!(rt; is_missing(&rt, rt.alloc(), &file, "S", TreeFault::WrongKind));
    assert!(rt; is_missing(&rt, rt.alloc(), &file, "A B", TreeFault::WrongKind));
    // The entry of a sector of the long stream leads out of the file.
    let byte = file.get_mut(512 + 4 * 20).expect(&rt, "an entry");
    *byte = 255;
    assert!(rt; is_no_tree(&rt, rt.alloc(), &file, "A"));
}

/// Whether so many calls write a file anew, to the same bytes as it has.
fn is_cleaned(alloc: Global, file: &[u8], calls: usize) -> bool {
    let mut source = Few { bytes: file, calls };
    let mut out = Vec::new(alloc);
    match clean_file(alloc, &mut source, &mut out) {
        Ok((count, _)) => count == out.len() && out.as_slice() == file,
        Err(_) => false,
    }
}

/// Whether so many calls are too few to open it, and nothing is written.
fn is_left(alloc: Global, file: &[u8], calls: usize) -> bool {
    let mut source = Few { bytes: file, calls };
    let mut out = Vec::new(alloc);
    match clean_file(alloc, &mut source, &mut out) {
        Err(CleanFault::Input(InputFault::Unreadable)) => out.is_empty(),
        _ => false,
    }
}

/// Whether so many calls are too few to read all its streams, and a front of it is written, which is empty or not.
fn is_broken_off(alloc: Global, file: &[u8], calls: usize, empty: bool) -> bool {
    let mut source = Few { bytes: file, calls };
    let mut out = Vec::new(alloc);
    match clean_file(alloc, &mut source, &mut out) {
        Err(CleanFault::Cut(InputFault::Unreadable)) => {
            out.is_empty() == empty && file.starts_with(&out)
        }
        _ => false,
    }
}

#[test]
fn a_file_is_cleaned_by_places(rt: HostRuntime) {
    let file = made(&rt, rt.alloc(), DESCRIPTION);
    assert!(rt; is_cleaned(rt.alloc(), &file, CALLS + 3));
    assert!(rt; is_broken_off(rt.alloc(), &file, CALLS + 2, false));
    assert!(rt; is_broken_off(rt.alloc(), &file, CALLS + 1, true));
    assert!(rt; is_broken_off(rt.alloc(), &file, CALLS, true));
    assert!(rt; is_left(rt.alloc(), &file, CALLS - 1));
}

/// Whether so many calls make so many entries of a file, all of them, or where it is cut off those before the one whose
/// bytes can't be read.
fn is_extracted(alloc: Global, file: &[u8], calls: usize, count: usize, is_cut: bool) -> bool {
    let mut source = Few { bytes: file, calls };
    let mut folder = Memory::new(alloc, 10);
    match extract_file(alloc, &mut source, &[], &mut folder) {
        Ok(made) => !is_cut && made == count && folder.room.saturating_add(count) == 10,
        Err(stop) => match &stop.fault {
            ExtractFault::Cut => is_cut
                && stop.made == count
                && folder.room.saturating_add(count) == 10,
            _ => false,
        },
    }
}

/// Whether so many calls are too few to open it, and nothing is made.
fn is_unmade(alloc: Global, file: &[u8], calls: usize) -> bool {
    let mut source = Few { bytes: file, calls };
    let mut folder = Memory::new(alloc, 10);
    match extract_file(alloc, &mut source, &[], &mut folder) {
        Ok(_) => false,
        Err(stop) => match &stop.fault {
            ExtractFault::Input(InputFault::Unreadable) => folder.room == 10,
            _ => false,
        },
    }
}

#[test]
fn a_file_is_extracted_by_places(rt: HostRuntime) {
    let file = made(&rt, rt.alloc(), DESCRIPTION);
    assert!(rt; is_extracted(rt.alloc(), &file, CALLS + 3, 5, false));
    assert!(rt; is_extracted(rt.alloc(), &file, CALLS + 2, 4, true));
    assert!(rt; is_extracted(rt.alloc(), &file, CALLS + 1, 3, true));
    assert!(rt; is_extracted(rt.alloc(), &file, CALLS, 3, true));
    assert!(rt; is_unmade(rt.alloc(), &file, CALLS - 1));
}
