//! Edits that tests make. These functions have no contracts, so that the tests stay quick to prove.

use read_files::read::read_file;
use read_queries::queries::is_file_of;
use std::alloc::Global;
use std::process::Abort;
use store_edits::editing::{Ending, edit_document};
use store_memory::memory_disk::MemoryDisk;
use store_model::area::Area;
use text_io::input::{InputFault, read_all};
use text_io::lines::parse_lines;
use tree_edits::change::{Change, Line};
use tree_edits::files::{FilesFault, Shelf, take_files};
use tree_edits::lines::EditLines;
use tree_storage::tree::Tree;
use tree_values::bytes::Bytes;
use write_described::making::make_file;

/// One file, of the name `one`.
#[derive(Clone, Copy)]
pub(crate) struct OneFile<'a> {
    pub bytes: &'a [u8],
}

impl<'a> Shelf for OneFile<'a> {
    ghost use Rattle.std.specs.Prelude.{◌≡◌};

    ghost gives = { λ shelf name bytes. bytes ≡ shelf.bytes.now };

    fn read(&self, alloc: Global, name: &[u8]) -> Result<Bytes, InputFault> {
        if name != b"one".as_slice() {
            return Err(InputFault::Unreadable);
        }
        match Bytes::from_slice(alloc, self.bytes) {
            Ok(bytes) => Ok(bytes),
            Err(_) => Err(InputFault::NoMemory),
        }
    }
}

/// The file of a description.
pub(crate) fn made(rt: &impl Abort, alloc: Global, description: &str) -> Vec<u8> {
    let mut text = description.as_bytes();
    let mut file = Vec::new(alloc);
    make_file(alloc, &mut text, &mut file).expect(rt, "a file");
    file
}

/// The tree of a file.
pub(crate) fn tree_of(rt: &impl Abort, alloc: Global, file: &[u8]) -> Tree {
    read_file(alloc, file).expect(rt, "a tree")
}

/// The lines of a text.
fn lines_of(rt: &impl Abort, alloc: Global, text: &str) -> Vec<(usize, Line)> {
    let mut reader = text.as_bytes();
    let bytes = read_all(alloc, &mut reader).expect(rt, "a text");
    parse_lines::<EditLines>(alloc, &bytes).expect(rt, "lines")
}

/// The changes that the lines of a text ask for, where there is one file.
pub(crate) fn changes_of(rt: &impl Abort, alloc: Global, text: &str) -> Vec<(usize, Change)> {
    let lines = lines_of(rt, alloc, text);
    match take_files(alloc, &OneFile { bytes: b"\x01\x02" }, lines) {
        Ok(changes) => changes,
        Err(_) => Vec::new(alloc),
    }
}

/// Whether the lines of a text name a file that isn't there.
pub(crate) fn names_nothing(rt: &impl Abort, alloc: Global, text: &str) -> bool {
    let lines = lines_of(rt, alloc, text);
    match take_files(alloc, &OneFile { bytes: b"" }, lines) {
        Err(FilesFault::Unread(_, InputFault::Unreadable)) => true,
        _ => false,
    }
}

/// A disk with this document, and no journal.
pub(crate) fn disk_with(rt: &impl Abort, alloc: Global, document: &[u8]) -> MemoryDisk {
    let document = Vec::from_slice(alloc, document).expect(rt, "memory");
    MemoryDisk::new(alloc, document, Vec::new(alloc)).expect(rt, "memory")
}

/// Edits a document on a disk of its own.
pub(crate) fn edit(
    rt: &impl Abort,
    alloc: Global,
    document: &[u8],
    changes: Vec<(usize, Change)>,
    is_zeroed: bool,
) -> Ending<MemoryDisk> {
    edit_document(alloc, disk_with(rt, alloc, document), changes, is_zeroed)
}

/// The document of a disk.
pub(crate) fn document_of(disk: &MemoryDisk) -> &[u8] {
    disk.held().bytes(Area::Document)
}

/// Whether a file is one of a tree.
pub(crate) fn is_of(rt: &impl Abort, alloc: Global, file: &[u8], tree: &Tree) -> bool {
    is_file_of(alloc, file, tree).expect(rt, "a file")
}
