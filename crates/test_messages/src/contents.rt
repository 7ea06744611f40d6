//! Bytes and streams.

use cfb_names::name::{Name, named};
use std::alloc::Global;
use std::process::Abort;
use tree_streams::stored::Stored;
use tree_streams::streams::NamedStream;
use tree_values::bytes::Bytes;

/// The bytes of a text.
pub(crate) fn bytes_of(rt: &impl Abort, alloc: Global, text: &str) -> Bytes {
    Bytes::from_slice(alloc, text.as_bytes()).expect(rt, "memory")
}

/// So many bytes.
pub(crate) fn bytes(rt: &impl Abort, alloc: Global, count: usize) -> Bytes {
    let bytes = vec![in alloc; 7; count].expect(rt, "memory");
    Bytes::from_vec(alloc, bytes).expect(rt, "memory")
}

pub(crate) fn name(rt: &impl Abort, text: &str) -> Name {
    named(text.as_bytes()).expect(rt, "a name")
}

/// One stream more.
pub(crate) fn put(rt: &impl Abort, stored: &mut Stored, text: &str, bytes: Bytes) {
    let name = name(rt, text);
    stored
        .streams
        .push(NamedStream { name, bytes })
        .expect(rt, "the next name");
}
