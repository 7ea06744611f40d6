//! The files of a world.

use cfb_names::name::{Name, named};
use ole_streams::doc::{Doc, DocObject};
use ole_streams::document_of::document_of;
use read_files::read::read_file;
use std::alloc::Global;
use std::process::Abort;
use world_run::world::World;

fn read(rt: &impl Abort, alloc: Global, file: &[u8]) -> Doc {
    let storage = read_file(alloc, file).expect(rt, "a file");
    document_of(alloc, storage).expect(rt, "a document")
}

fn text_of(object: &DocObject, name: &Name) -> &'static str {
    match object.stored.streams.get(name) {
        Some(text) if text.as_slice() == b"aa".as_slice() => "aa",
        Some(_) => "another",
        None => "textless",
    }
}

fn text_of_one(doc: &Doc, name: &Name) -> &'static str {
    match doc.as_slice() {
        [object] => text_of(object, name),
        [] => "empty",
        _ => "many",
    }
}

fn text_in(rt: &impl Abort, doc: &Doc) -> &'static str {
    text_of_one(doc, &named(b"Text").expect(rt, "a name"))
}

/// The text of the one note in the document of the file of a frame.
pub(crate) fn file(rt: &impl Abort, alloc: Global, world: &World, frame: u32) -> &'static str {
    match world.frame_file(frame) {
        Some(file) => text_in(rt, &read(rt, alloc, file)),
        None => "none",
    }
}
