//! Writing small files. What stands where is shown by the cases `make_*` of `tests/cli`.

use crate::texts::{number, word};
use cfb_names::name::{Name, named};
use std::alloc::Global;
use std::process::Abort;
use tree_storage::tree::Tree;
use tree_values::bytes::Bytes;
use tree_values::class_id::ClassId;
use write_files::write::{fits, write_file};

/// A stream is put with so many bytes, and the file has then this length, or none, and fits or why not.
///
/// A stream of up to 4,095 bytes stands in mini sectors, a longer one in sectors of its own. 109 FAT sectors cover
/// 13,842 sectors of one stream and one of the directory, one sector more takes a DIFAT sector and a FAT sector, and
/// 1,125 FAT sectors with 8 DIFAT sectors cover 142,866 sectors of one stream and one of the directory. With A to N
/// there are 4 sectors of the directory, 7 of the mini FAT and 112 of the mini stream; 24 mini sectors more give 4, 8
/// and 115, which is as much as one FAT sector covers; 32 more give one more and a second FAT sector.
const STREAMS: &str = "A 4095 6144 fits
A 4096 5632 fits
A 4097 6144 fits
A 7087104 7143936 fits
A 7087105 7145472 fits
A 73147392 73728512 fits
A 73147393 0 TooBig
A 4095 6144 fits
B 4095 . .
C 4095 . .
D 4095 . .
E 4095 . .
F 4095 . .
G 4095 . .
H 4095 . .
I 4095 . .
J 4095 . .
K 4095 . .
L 4095 . .
M 4095 . .
N 4095 . .
O 0 64000 fits
O 1536 66048 fits
O 2048 67072 fits";

/// So many bytes 7.
fn bytes(rt: &impl Abort, alloc: Global, len: u32) -> Bytes {
    let bytes = vec![in alloc; 7; len as usize].expect(rt, "memory");
    Bytes::from_vec(alloc, bytes).expect(rt, "memory")
}

fn name(rt: &impl Abort, text: &str) -> Name {
    named(text.as_bytes()).expect(rt, "a name")
}

fn put(rt: &impl Abort, tree: &mut Tree, name: Name, bytes: Bytes) {
    tree.put_stream(&[name], bytes).expect(rt, "a free name");
}

/// Whether a file can hold a tree, or why not.
fn told(tree: &Tree) -> &'static str {
    match fits(tree.root()) {
        Ok(()) => "fits",
        Err(fault) => fault.name(),
    }
}

/// The length of the file of a tree.
fn written(alloc: Global, tree: &Tree) -> usize {
    match write_file(alloc, tree) {
        Ok(file) => file.len(),
        Err(_) => 0,
    }
}

/// Puts the stream of a row, and whether the file is then as it says.
fn holds(rt: &impl Abort, alloc: Global, tree: &mut Tree, row: &str) -> bool {
    let mut words = row.split_whitespace();
    let name = name(rt, word(&mut words));
    put(rt, tree, name, bytes(rt, alloc, number(word(&mut words))));
    let len = word(&mut words);
    len == "." || is_file(alloc, tree, number(len), word(&mut words))
}

fn is_file(alloc: Global, tree: &Tree, len: u32, want: &str) -> bool {
    written(alloc, tree) == len as usize && told(tree) == want
}

#[test]
fn trees_are_written_while_they_fit(rt: HostRuntime) {
    let mut tree = Tree::new(rt.alloc(), ClassId::from_bytes(*b"0123456789abcdef"), 0);
    for row in STREAMS.split('\n') {
        assert!(rt; holds(&rt, rt.alloc(), &mut tree, row), "{row}");
    }
}
