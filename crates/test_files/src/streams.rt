//! Lists of streams, their bytes and their classes.

use crate::texts::{number, word};
use cfb_names::name::{Name, named};
use std::alloc::Global;
use std::process::Abort;
use tree_storage::fault::TreeFault;
use tree_streams::fault::StreamsFault;
use tree_streams::stored::Stored;
use tree_streams::streams::{NamedStream, Streams};
use tree_values::bytes::Bytes;
use tree_values::class_id::ClassId;

/// Four words a call: the call, a name, bytes, and what is told. A point stands for nothing.
const PUSHES: &str = "len . 0 ok
push Text 12 ok
push TEXT 3 OutOfOrder
push ZZZ 3 OutOfOrder
push Cells 4 ok";

const COPIED: &str = "len . 2 ok
get text 12 ok
get Cells 4 ok
get Shapes 4 none
next Shapes . ok
next Cell . none";

fn bytes(rt: &impl Abort, alloc: Global, text: &str) -> Bytes {
    Bytes::from_slice(alloc, text.as_bytes()).expect(rt, "memory")
}

fn push(streams: &mut Streams, name: Name, bytes: Bytes) -> bool {
    match streams.push(NamedStream { name, bytes }) {
        Ok(()) => true,
        Err(fault) => fault.name() != "OutOfOrder",
    }
}

/// Whether a stream of this name has these bytes.
fn holds(streams: &Streams, name: &Name, text: &str) -> bool {
    match streams.get(name) {
        Some(bytes) => {
            bytes.as_slice() == text.as_bytes() && bytes.len() == text.len() && !bytes.is_empty()
        }
        None => false,
    }
}

fn are_so_many(streams: &Streams, count: u32) -> bool {
    let len = streams.len();
    len == count as usize && streams.as_slice().len() == len && streams.is_empty() == (len == 0)
}

fn carry_out(
    rt: &impl Abort,
    alloc: Global,
    streams: &mut Streams,
    call: &str,
    name: Name,
    with: &str,
) -> bool {
    match call {
        "push" => push(streams, name, bytes(rt, alloc, with)),
        "get" => holds(streams, &name, with),
        "len" => are_so_many(streams, number(with)),
        _ => streams.is_next(&name),
    }
}

fn name(rt: &impl Abort, text: &str) -> Name {
    named(text.as_bytes()).expect(rt, "a name")
}

/// Whether streams tell what a call wants.
fn tells(rt: &impl Abort, alloc: Global, streams: &mut Streams, row: &str) -> bool {
    let mut words = row.split_whitespace();
    let call = word(&mut words);
    let name = name(rt, word(&mut words));
    let with = word(&mut words);
    let told = carry_out(rt, alloc, streams, call, name, with);
    told == (word(&mut words) == "ok")
}

/// Checks that streams tell what each call wants.
fn play(rt: &impl Abort, alloc: Global, streams: &mut Streams, calls: &str) {
    for row in calls.split('\n') {
        assert!(rt; tells(rt, alloc, streams, row), "{row}");
    }
}

fn is_seven(rt: &impl Abort, alloc: Global, picture: Bytes) -> bool {
    let bytes = picture.into_vec(alloc).expect(rt, "memory");
    bytes.as_slice() == b"7".as_slice()
}

fn copy(rt: &impl Abort, alloc: Global, stored: &Stored) -> Stored {
    stored.copy(alloc).expect(rt, "memory")
}

#[test]
fn streams_stand_in_name_order(rt: HostRuntime) {
    let mut stored = Stored::new(rt.alloc());
    play(&rt, rt.alloc(), &mut stored.streams, PUSHES);
    stored.picture = bytes(&rt, rt.alloc(), "7");
    let mut copy = copy(&rt, rt.alloc(), &stored);
    play(&rt, rt.alloc(), &mut copy.streams, COPIED);
    assert!(rt; is_seven(&rt, rt.alloc(), copy.picture));
}

#[test]
fn a_class_id_is_its_bytes(rt: HostRuntime) {
    let class = ClassId::from_bytes(*b"0123456789abcdef");
    assert!(rt; class.as_bytes() == b"0123456789abcdef");
    assert!(rt; class != ClassId::from_bytes(*b"0123456789abcdeF"));
}

#[test]
fn a_want_of_memory_has_its_name(rt: HostRuntime) {
    assert!(rt; TreeFault::NoMemory.name() == "NoMemory");
    assert!(rt; StreamsFault::NoMemory.name() == "NoMemory");
}
