//! What tests call. These functions have no contracts, so that the tests stay quick to prove.

use cfb_names::name::{Name, named};
use ole_model::comp_obj::CompObj;
use ole_model::fault::OleFault;
use ole_model::ole_stream::OleStream;
use ole_streams::doc::{Doc, DocObject};
use ole_streams::document_of::document_of;
use ole_streams::document_tree::document_tree;
use ole_streams::names;
use read_files::read::read_file;
use std::alloc::{AllocError, Global};
use std::process::Abort;
use test_marks::marks::{begin, end};
use tree_storage::tree::Tree;
use tree_streams::area::Area;
use tree_streams::limits::{comp_obj, ole};
use tree_streams::stored::Stored;
use tree_streams::streams::{NamedStream, Streams};
use tree_values::bytes::Bytes;
use tree_values::class_id::ClassId;
use write_files::write::write_file;

pub(crate) fn bytes(rt: &impl Abort, alloc: Global, bytes: &[u8]) -> Bytes {
    Bytes::from_slice(alloc, bytes).expect(rt, "memory")
}

pub(crate) fn name(rt: &impl Abort, text: &[u8]) -> Name {
    named(text).expect(rt, "a name")
}

fn streams(rt: &impl Abort, alloc: Global, stream: &[u8]) -> Streams {
    let mut streams = Streams::new(alloc);
    let name = name(rt, b"Text");
    let bytes = bytes(rt, alloc, stream);
    streams
        .push(NamedStream { name, bytes })
        .expect(rt, "memory");
    streams
}

/// An object with this picture and this stream.
pub(crate) fn object(
    rt: &impl Abort,
    alloc: Global,
    x: u16,
    picture: &[u8],
    stream: &[u8],
) -> DocObject {
    let streams = streams(rt, alloc, stream);
    let picture = bytes(rt, alloc, picture);
    DocObject {
        class: ClassId::from_bytes([7; 16]),
        user_type: bytes(rt, alloc, b"Note"),
        area: Area {
            x,
            y: 2,
            w: 300,
            h: 4,
        },
        stored: Stored { streams, picture },
    }
}

fn pushed_once(alloc: Global, doc: &mut Doc, object: DocObject) -> Result<(), OleFault> {
    begin(alloc);
    let answer = doc.push(object);
    end(alloc);
    answer
}

fn push_told(answer: Result<(), OleFault>) -> &'static str {
    match answer {
        Ok(()) => "pushed",
        Err(fault) => fault.name(),
    }
}

/// How a push is answered. Where memory is refused, the document is as before, and the object is pushed again.
pub(crate) fn pushed(
    rt: &impl Abort,
    alloc: Global,
    doc: &mut Doc,
    object: DocObject,
) -> &'static str {
    let again = object.copy(alloc).expect(rt, "memory");
    let len = doc.len();
    match pushed_once(alloc, doc, object) {
        Err(OleFault::NoMemory) => {
            assert!(rt; doc.len() == len);
            push_told(pushed_once(alloc, doc, again))
        }
        answer => push_told(answer),
    }
}

fn tree_once(alloc: Global, doc: Doc) -> Result<Tree, AllocError> {
    begin(alloc);
    let tree = document_tree(alloc, doc);
    end(alloc);
    tree
}

fn copy_once(alloc: Global, doc: &Doc) -> Result<Doc, AllocError> {
    begin(alloc);
    let copy = doc.copy(alloc);
    end(alloc);
    copy
}

/// A copy of a document, made again where memory is refused.
pub(crate) fn copy_of(rt: &impl Abort, alloc: Global, doc: &Doc) -> Doc {
    match copy_once(alloc, doc) {
        Ok(copy) => copy,
        Err(_) => copy_once(alloc, doc).expect(rt, "memory"),
    }
}

/// The tree of a document, made again where memory is refused.
pub(crate) fn tree_of(rt: &impl Abort, alloc: Global, doc: Doc) -> Tree {
    let again = doc.copy(alloc).expect(rt, "memory");
    match tree_once(alloc, doc) {
        Ok(tree) => tree,
        Err(_) => tree_once(alloc, again).expect(rt, "memory"),
    }
}

/// An equal tree.
fn twin(rt: &impl Abort, alloc: Global, tree: &Tree) -> Tree {
    let file = write_file(alloc, tree).expect(rt, "a file");
    read_file(alloc, &file).expect(rt, "a tree")
}

fn doc_once(alloc: Global, tree: Tree) -> Result<Doc, OleFault> {
    begin(alloc);
    let doc = document_of(alloc, tree);
    end(alloc);
    doc
}

/// The document of a tree, or why it holds none. It is read again where memory is refused.
fn doc_or_fault(rt: &impl Abort, alloc: Global, tree: Tree) -> Result<Doc, OleFault> {
    let again = twin(rt, alloc, &tree);
    match doc_once(alloc, tree) {
        Err(OleFault::NoMemory) => doc_once(alloc, again),
        doc => doc,
    }
}

/// The document of a tree.
pub(crate) fn doc_of(rt: &impl Abort, alloc: Global, tree: Tree) -> Doc {
    doc_or_fault(rt, alloc, tree).expect(rt, "a document")
}

/// "read", or why a tree holds no document.
pub(crate) fn doc_told(rt: &impl Abort, alloc: Global, tree: Tree) -> &'static str {
    match doc_or_fault(rt, alloc, tree) {
        Ok(_) => "read",
        Err(fault) => fault.name(),
    }
}

/// Puts a stream at a path of one name or two.
pub(crate) fn put(rt: &impl Abort, tree: &mut Tree, path: &[Name], bytes: Bytes) {
    tree.put_stream(path, bytes).expect(rt, "a storage");
}

pub(crate) fn remove(rt: &impl Abort, tree: &mut Tree, path: &[Name]) {
    tree.remove(path).expect(rt, "what is to go");
}

/// What says of which user type an object is, written again where memory is refused.
pub(crate) fn kind(rt: &impl Abort, alloc: Global, user_type: &[u8]) -> Bytes {
    let kind = CompObj {
        user_type: bytes(rt, alloc, user_type),
    };
    assert!(rt; kind.user_type.len() < 0xffff_ffff);
    begin(alloc);
    let written = kind.write(alloc, ClassId::from_bytes([7; 16]));
    end(alloc);
    match written {
        Ok(bytes) => bytes,
        Err(_) => kind
            .write(alloc, ClassId::from_bytes([7; 16]))
            .expect(rt, "memory"),
    }
}

pub(crate) fn make_storage(rt: &impl Abort, tree: &mut Tree, name: Name) {
    tree.make_storage(&[name], ClassId::from_bytes([7; 16]), 0)
        .expect(rt, "a new storage");
}

/// Makes the storage of an object with its OLE streams.
fn make_object(rt: &impl Abort, alloc: Global, tree: &mut Tree, number: usize) {
    assert!(rt; number < 100);
    make_storage(rt, tree, names::object(number));
    put(
        rt,
        tree,
        &[names::object(number), ole()],
        bytes(rt, alloc, &OleStream.write()),
    );
    put(
        rt,
        tree,
        &[names::object(number), comp_obj()],
        kind(rt, alloc, b""),
    );
}

/// A layout that counts so many objects, with so many areas.
pub(crate) fn layout(rt: &impl Abort, alloc: Global, count: u8, areas: usize) -> Bytes {
    let mut out = Vec::from_slice(alloc, &[1, 0, 0, 0, count, 0, 0, 0]).expect(rt, "memory");
    for _ in 0..areas {
        out.extend_from_slice(&[0, 0, 0, 0, 1, 0, 1, 0])
            .expect(rt, "memory");
    }
    Bytes::from_vec(alloc, out).expect(rt, "memory")
}

/// A root with the objects of these numbers, and a layout that counts so many.
pub(crate) fn tree_with(
    rt: &impl Abort,
    alloc: Global,
    first: usize,
    last: usize,
    count: u8,
) -> Tree {
    let mut tree = Tree::new(alloc, ClassId::from_bytes([9; 16]), 5);
    for number in first..=last {
        make_object(rt, alloc, &mut tree, number);
    }
    let layout = layout(rt, alloc, count, usize::from(count));
    put(rt, &mut tree, &[names::layout()], layout);
    tree
}
