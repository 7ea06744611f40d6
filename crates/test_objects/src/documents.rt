//! Documents and their trees.

use crate::calls::{
    bytes, copy_of, doc_of, doc_told, layout, make_storage, name, object, pushed, put, remove,
    tree_of, tree_with,
};
use crate::rows::{spelled, word};
use cfb_names::name::Name;
use ole_streams::doc::{Doc, DocObject};
use ole_streams::names;
use read_files::read::read_file;
use std::alloc::Global;
use std::process::Abort;
use tree_storage::tree::Tree;
use tree_streams::limits::{comp_obj, ole, ole_pres};
use tree_streams::streams::Streams;
use tree_values::bytes::Bytes;
use write_files::write::write_file;

/// Three words a push: the picture's bytes, those of the stream, and how it is answered. A long stream and a picture
/// besides are more than an object may have.
const PUSHES: &str = "78 long NotADocument
. long pushed";

const SMALL: &str = ". . pushed";

const ONE_TOO_MANY: &str = ". . TooManyObjects";

/// Three words a tree: the first object, the last and how many the layout counts; what is done to it; what is told of
/// it. The second object stands there without the first, there are too few and too many, 64 and 65; the layout has one
/// area more than it counts; the layout and a `\1CompObj` are missing; `\1Ole` is cut short; an empty picture is none.
const TREES: &str = "01,02,02 . read
01,40,40 . read
02,02,01 . NotADocument
01,02,01 . NotADocument
01,02,03 . NotADocument
01,41,41 . TooManyObjects
01,01,01 areas NotADocument
01,01,01 -layout NotADocument
01,01,01 -kind NotADocument
01,01,01 ole Truncated
01,01,01 picture read";

/// A picture that can't be drawn, which is kept as it is.
const UNDRAWN: &[u8] = b"\xff\xff\xff\xff\x03\0\0\0";

fn long(rt: &impl Abort, alloc: Global) -> Vec<u8> {
    vec![in alloc; 7; 262_144].expect(rt, "memory")
}

fn stream_of(rt: &impl Abort, alloc: Global, word: &str) -> Vec<u8> {
    match word {
        "long" => long(rt, alloc),
        _ => spelled(rt, alloc, word),
    }
}

/// Whether a push is answered as a row says.
fn is_pushed(rt: &impl Abort, alloc: Global, doc: &mut Doc, row: &str) -> bool {
    let mut words = row.split_whitespace();
    let picture = spelled(rt, alloc, word(&mut words));
    let stream = stream_of(rt, alloc, word(&mut words));
    pushed(rt, alloc, doc, object(rt, alloc, 1, &picture, &stream)) == word(&mut words)
}

fn change(rt: &impl Abort, alloc: Global, tree: &mut Tree, what: &str) {
    match what {
        "areas" => put_areas(rt, alloc, tree),
        "-layout" => remove(rt, tree, &[names::layout()]),
        "-kind" => remove(rt, tree, &[names::object(1), comp_obj()]),
        "ole" => put_ole(rt, alloc, tree),
        "picture" => put_picture(rt, alloc, tree),
        _ => {}
    }
}

fn put_areas(rt: &impl Abort, alloc: Global, tree: &mut Tree) {
    put(rt, tree, &[names::layout()], layout(rt, alloc, 1, 2));
}

fn put_ole(rt: &impl Abort, alloc: Global, tree: &mut Tree) {
    let cut = bytes(rt, alloc, b"\x01\0\0\x02");
    put(rt, tree, &[names::object(1), ole()], cut);
}

fn put_picture(rt: &impl Abort, alloc: Global, tree: &mut Tree) {
    let path = [names::object(1), ole_pres()];
    put(rt, tree, &path, Bytes::new(alloc));
}

fn with_empty_picture(rt: &impl Abort, alloc: Global) -> Tree {
    let mut tree = tree_with(rt, alloc, 1, 1, 1);
    put_picture(rt, alloc, &mut tree);
    tree
}

/// Whether the only object of a document has no picture and an empty user type.
fn is_undrawn(doc: &Doc) -> bool {
    match doc.as_slice() {
        [object] => object.stored.picture.is_empty() && object.user_type.is_empty(),
        _ => false,
    }
}

fn numbered(rt: &impl Abort, alloc: Global, numbers: &[u8]) -> Tree {
    assert!(rt; numbers.len() == 3);
    let first = usize::from(numbers[0]);
    tree_with(rt, alloc, first, usize::from(numbers[1]), numbers[2])
}

/// Whether a tree holds a document, or not, as a row says.
fn is_told(rt: &impl Abort, alloc: Global, row: &str) -> bool {
    let mut words = row.split_whitespace();
    let mut tree = numbered(rt, alloc, &spelled(rt, alloc, word(&mut words)));
    change(rt, alloc, &mut tree, word(&mut words));
    doc_told(rt, alloc, tree) == word(&mut words)
}

/// Whether a stream has these bytes.
fn holds(streams: &Streams, name: &Name, want: &[u8]) -> bool {
    match streams.get(name) {
        Some(bytes) => bytes.as_slice() == want,
        None => false,
    }
}

/// Whether an object is one that was made at this column, with this picture and this stream.
fn is_made(rt: &impl Abort, object: &DocObject, x: u16, picture: &[u8], stream: &[u8]) -> bool {
    has_place(object, x)
        && object.user_type.as_slice() == b"Note".as_slice()
        && object.stored.picture.as_slice() == picture
        && holds(&object.stored.streams, &name(rt, b"Text"), stream)
}

fn has_place(object: &DocObject, x: u16) -> bool {
    let area = &object.area;
    area.x == x
        && area.y == 2
        && area.w == 300
        && area.h == 4
        && are_all(object.class.as_bytes(), 7)
}

fn are_all(bytes: &[u8], byte: u8) -> bool {
    for item in bytes {
        if *item != byte {
            return false;
        }
    }
    true
}

/// Whether an object at this column, with this picture and this stream, is taken.
fn takes(
    rt: &impl Abort,
    alloc: Global,
    doc: &mut Doc,
    x: u16,
    picture: &[u8],
    stream: &[u8],
) -> bool {
    pushed(rt, alloc, doc, object(rt, alloc, x, picture, stream)) == "pushed"
}

/// A document with two objects.
fn two(rt: &impl Abort, alloc: Global) -> Doc {
    let mut doc = Doc::new(alloc, 0);
    assert!(rt; takes(rt, alloc, &mut doc, 1, UNDRAWN, b"ab"));
    assert!(rt; takes(rt, alloc, &mut doc, 2, b"", b""));
    doc
}

/// Whether a document has the two objects of `two`.
fn are_two(rt: &impl Abort, doc: &Doc) -> bool {
    match doc.as_slice() {
        [first, last] => { is_made(rt, first, 1, UNDRAWN, b"ab") && is_made(rt, last, 2, b"", b"") }
        _ => false,
    }
}

/// Whether a tree is written as so many bytes, which hold a document.
fn is_file(rt: &impl Abort, alloc: Global, tree: &Tree, size: usize) -> bool {
    let file = write_file(alloc, tree).expect(rt, "a file");
    let read = read_file(alloc, &file).expect(rt, "a tree");
    file.len() == size && doc_told(rt, alloc, read) == "read"
}

#[test]
fn an_empty_document_is_a_file(rt: HostRuntime) {
    let tree = tree_of(&rt, rt.alloc(), Doc::new(rt.alloc(), 0));
    assert!(rt; tree.root().children.len() == 1);
    assert!(rt; is_file(&rt, rt.alloc(), &tree, 2560));
}

#[test]
fn a_document_is_read_again(rt: HostRuntime) {
    let doc = two(&rt, rt.alloc());
    let copy = copy_of(&rt, rt.alloc(), &doc);
    assert!(rt; are_two(&rt, &copy));
    let tree = tree_of(&rt, rt.alloc(), doc);
    assert!(rt; tree.root().children.len() == 3);
    assert!(rt; are_two(&rt, &doc_of(&rt, rt.alloc(), tree)));
}

#[test]
fn a_document_holds_what_fits(rt: HostRuntime) {
    let mut doc = Doc::new(rt.alloc(), 0);
    for row in PUSHES.split('\n') {
        assert!(rt; is_pushed(&rt, rt.alloc(), &mut doc, row), "{row}");
    }
    for _ in 1..64 {
        assert!(rt; is_pushed(&rt, rt.alloc(), &mut doc, SMALL));
    }
    assert!(rt; is_pushed(&rt, rt.alloc(), &mut doc, ONE_TOO_MANY));
    assert!(rt; doc.len() == 64);
    assert!(rt; doc_told(&rt, rt.alloc(), tree_of(&rt, rt.alloc(), doc)) == "read");
}

#[test]
fn trees_hold_documents_or_none(rt: HostRuntime) {
    for row in TREES.split('\n') {
        assert!(rt; is_told(&rt, rt.alloc(), row), "{row}");
    }
    let undrawn = doc_of(&rt, rt.alloc(), with_empty_picture(&rt, rt.alloc()));
    assert!(rt; is_undrawn(&undrawn));
}

/// A document without objects, with a stream `Session` of these bytes.
fn of_session(rt: &impl Abort, alloc: Global, stream: &[u8]) -> Tree {
    let mut tree = tree_of(rt, alloc, Doc::new(alloc, 0));
    put(rt, &mut tree, &[names::session()], bytes(rt, alloc, stream));
    tree
}

#[test]
fn a_document_has_its_session(rt: HostRuntime) {
    for session in [0, 1, 513, 4_294_967_295] {
        let tree = tree_of(&rt, rt.alloc(), Doc::new(rt.alloc(), session));
        let children = if session == 0 { 1 } else { 2 };
        assert!(rt; tree.root().children.len() == children);
        assert!(rt; doc_of(&rt, rt.alloc(), tree).session() == session);
    }
    let zero = of_session(&rt, rt.alloc(), b"\0\0\0\0");
    assert!(rt; doc_of(&rt, rt.alloc(), zero).session() == 0);
}

#[test]
fn a_session_has_four_bytes(rt: HostRuntime) {
    for stream in [b"".as_slice(), b"\x01\0\0", b"\x01\0\0\0\0"] {
        let tree = of_session(&rt, rt.alloc(), stream);
        assert!(rt; doc_told(&rt, rt.alloc(), tree) == "NotADocument");
    }
    let mut tree = tree_of(&rt, rt.alloc(), Doc::new(rt.alloc(), 0));
    make_storage(&rt, &mut tree, names::session());
    assert!(rt; doc_told(&rt, rt.alloc(), tree) == "NotADocument");
}
