//! Reading a small file. What is refused, and what isn't looked at, is shown by the cases `clean_*`, `get_*` and
//! `list_*` of `tests/cli`.

use crate::texts::{are_all, spelled};
use cfb_names::name::{Name, named};
use read_files::fault::{ReadFault, StreamFault};
use read_files::read::{read_file, read_outline};
use read_outlines::outline::{Outline, Part};
use read_queries::queries::{is_file_of, read_stream};
use std::alloc::Global;
use std::process::Abort;
use tree_storage::storage::Found;
use tree_storage::tree::Tree;
use tree_values::class_id::ClassId;

/// A header and a FAT, a root of class 7 with state bits 258 above the stream `A`, the mini FAT, and the mini stream
/// with the bytes 1, 2, 3.
pub(crate) const FILE: &str =
    "d0cf11e0a1b11ae1,16*00,3e000300feff09000600,10*00,01000000,01000000,4*00,00100000,02000000,01000000,feffffff,8*00,432*ff,fdffffff,3*feffffff,496*ff,5200,62*00,04000501,8*ff,01000000,16*07,02010000,16*00,03000000,40000000,4*00,4100,62*00,04000201,12*ff,40*00,03000000,4*00,256*00,feffffff,508*ff,010203,509*00";

/// Whether a tree is as the file has it.
pub(crate) fn is_read(tree: &Tree, name: Name) -> bool {
    let root = tree.root();
    if root.children.len() != 1 || root.state != 258 || !are_all(root.class.as_bytes(), 7) {
        return false;
    }
    match tree.get(&[name]) {
        Ok(Found::Stream(bytes)) => bytes.as_slice() == b"\x01\x02\x03".as_slice(),
        _ => false,
    }
}

/// How many bytes the first stream of an outline has.
pub(crate) fn first_size(outline: &Outline) -> Option<u32> {
    match &outline.parts.first()?.1 {
        Part::Stream(place) => Some(place.size),
        Part::Storage(_) => None,
    }
}

fn is_no_stream(answer: Result<Vec<u8>, StreamFault>) -> bool {
    match answer {
        Err(StreamFault::Tree(fault)) => fault.name() == "WrongKind",
        _ => false,
    }
}

fn name(rt: &impl Abort, text: &str) -> Name {
    named(text.as_bytes()).expect(rt, "a name")
}

fn is_whole(rt: &impl Abort, alloc: Global, file: &[u8]) -> bool {
    let tree = read_file(alloc, file).expect(rt, "a file");
    is_read(&tree, name(rt, "A"))
}

fn is_outlined(rt: &impl Abort, alloc: Global, file: &[u8]) -> bool {
    let outline = read_outline(alloc, file).expect(rt, "a file");
    first_size(&outline) == Some(3)
}

fn has_stream(rt: &impl Abort, alloc: Global, file: &[u8]) -> bool {
    let bytes = read_stream(alloc, file, &[name(rt, "a")]).expect(rt, "a stream");
    bytes.as_slice() == b"\x01\x02\x03".as_slice()
}

/// Whether it is told of a file's tree that the file denotes it, and of another that it doesn't.
fn is_told_of_its_tree(rt: &impl Abort, alloc: Global, file: &[u8]) -> bool {
    let tree = read_file(alloc, file).expect(rt, "a file");
    let other = Tree::new(alloc, ClassId::from_bytes([0; 16]), 0);
    let same = is_file_of(alloc, file, &tree).expect(rt, "a file");
    same && !is_file_of(alloc, file, &other).expect(rt, "a file")
}

#[test]
fn a_file_is_read(rt: HostRuntime) {
    let file = spelled(&rt, rt.alloc(), FILE);
    assert!(rt; is_whole(&rt, rt.alloc(), &file));
    assert!(rt; is_outlined(&rt, rt.alloc(), &file));
    assert!(rt; has_stream(&rt, rt.alloc(), &file));
    assert!(rt; is_told_of_its_tree(&rt, rt.alloc(), &file));
    assert!(rt; is_no_stream(read_stream(rt.alloc(), &file, &[])));
    assert!(rt; ReadFault::NoMemory.name() == "NoMemory");
}
