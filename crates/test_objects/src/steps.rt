//! Tables of calls to an object, a line each: the call, what the object is stored as from then on (of `picture`: what
//! it looks like), and the answer, each behind ` => `. Tables are texts, and the functions have no contracts: so the
//! tests are quick to prove.

use crate::texts::{halves, spelled};
use cfb_names::name::named;
use object_core::embedded::Embedded;
use object_core::fault::EmbedFault;
use object_core::{Bytes, Streams};
use std::alloc::Global;
use std::process::Abort;
use test_marks::marks::{begin, end};
use tree_streams::streams::NamedStream;

/// The object answers each call as its line says, and is stored in a stream of this name.
pub(crate) fn play(
    rt: &impl Abort,
    alloc: Global,
    object: &mut Box<dyn Embedded>,
    name: &str,
    rows: &str,
) {
    for row in rows.split('\n') {
        if is_row(row) {
            assert!(rt; answers(rt, alloc, object, name, row), "{row}");
        }
    }
}

fn is_row(line: &str) -> bool {
    !line.is_empty() && !line.starts_with("#")
}

fn answers(
    rt: &impl Abort,
    alloc: Global,
    object: &mut Box<dyn Embedded>,
    name: &str,
    row: &str,
) -> bool {
    let (step, wants) = halves(row, " => ");
    let (shows, answer) = halves(wants, " => ");
    carry_out(rt, alloc, object, step) == answer && shows_as(rt, alloc, object, name, step, shows)
}

fn shows_as(
    rt: &impl Abort,
    alloc: Global,
    object: &Box<dyn Embedded>,
    name: &str,
    step: &str,
    shows: &str,
) -> bool {
    let want = spelled(rt, alloc, shows);
    if step == "picture" {
        is_drawn(rt, alloc, object, &want)
    } else {
        is_stored(rt, alloc, object, name, &want)
    }
}

/// Carries out a call: `init`, `edit BYTES` or `load NAME=BYTES;NAME=BYTES`.
fn carry_out(
    rt: &impl Abort,
    alloc: Global,
    object: &mut Box<dyn Embedded>,
    step: &str,
) -> &'static str {
    let (call, rest) = halves(step, " ");
    match call.as_bytes() {
        [b'e', ..] => edit(rt, alloc, object, rest),
        [b'l', ..] => load(rt, alloc, object, rest),
        [b'i', ..] => init(object),
        _ => "Ok",
    }
}

fn init(object: &mut Box<dyn Embedded>) -> &'static str {
    object.init();
    "Ok"
}

fn edited(alloc: Global, object: &mut Box<dyn Embedded>, bytes: &[u8]) -> Result<(), EmbedFault> {
    begin(alloc);
    let answer = object.edit(alloc, bytes);
    end(alloc);
    answer
}

fn loaded(
    alloc: Global,
    object: &mut Box<dyn Embedded>,
    streams: &Streams,
) -> Result<(), EmbedFault> {
    begin(alloc);
    let answer = object.load(alloc, streams);
    end(alloc);
    answer
}

/// What an object is stored as.
fn saved(rt: &impl Abort, alloc: Global, object: &Box<dyn Embedded>) -> Streams {
    object.save(alloc).expect(rt, "memory")
}

fn same(one: &[NamedStream], other: &[NamedStream]) -> bool {
    match (one, other) {
        ([one], [other]) => one.bytes.as_slice() == other.bytes.as_slice(),
        _ => false,
    }
}

/// Whether an object is stored as it was before.
fn is_as(rt: &impl Abort, alloc: Global, object: &Box<dyn Embedded>, before: &Streams) -> bool {
    same(saved(rt, alloc, object).as_slice(), before.as_slice())
}

/// Edits an object. Where memory is refused, it is as before, and is edited again.
fn edit(
    rt: &impl Abort,
    alloc: Global,
    object: &mut Box<dyn Embedded>,
    text: &str,
) -> &'static str {
    let bytes = spelled(rt, alloc, text);
    let before = saved(rt, alloc, object);
    match edited(alloc, object, &bytes) {
        Err(EmbedFault::NoMemory) => {
            assert!(rt; is_as(rt, alloc, object, &before));
            told(edited(alloc, object, &bytes))
        }
        answer => told(answer),
    }
}

/// The same of streams that it loads.
fn load(
    rt: &impl Abort,
    alloc: Global,
    object: &mut Box<dyn Embedded>,
    text: &str,
) -> &'static str {
    let streams = streams_of(rt, alloc, text);
    let before = saved(rt, alloc, object);
    match loaded(alloc, object, &streams) {
        Err(EmbedFault::NoMemory) => {
            assert!(rt; is_as(rt, alloc, object, &before));
            told(loaded(alloc, object, &streams))
        }
        answer => told(answer),
    }
}

/// `Ok`, or the fault's name.
fn told(answer: Result<(), EmbedFault>) -> &'static str {
    match answer {
        Ok(()) => "Ok",
        Err(fault) => fault.name(),
    }
}

fn streams_of(rt: &impl Abort, alloc: Global, text: &str) -> Streams {
    let mut streams = Streams::new(alloc);
    for stream in text.split(';') {
        if !stream.is_empty() {
            push(rt, alloc, &mut streams, stream);
        }
    }
    streams
}

fn push(rt: &impl Abort, alloc: Global, streams: &mut Streams, text: &str) {
    let (name, bytes) = halves(text, "=");
    let name = named(name.as_bytes()).expect(rt, "a name");
    let bytes = Bytes::from_vec(alloc, spelled(rt, alloc, bytes)).expect(rt, "memory");
    streams
        .push(NamedStream { name, bytes })
        .expect(rt, "the next name");
}

fn drawn_once(alloc: Global, object: &Box<dyn Embedded>) -> Result<Vec<u8>, EmbedFault> {
    begin(alloc);
    let picture = object.render(alloc);
    end(alloc);
    picture
}

/// What an object looks like, asked for again where memory is refused.
fn drawn(rt: &impl Abort, alloc: Global, object: &Box<dyn Embedded>) -> Vec<u8> {
    match drawn_once(alloc, object) {
        Err(EmbedFault::NoMemory) => drawn_once(alloc, object).expect(rt, "memory"),
        picture => picture.expect(rt, "a picture"),
    }
}

fn is_drawn(rt: &impl Abort, alloc: Global, object: &Box<dyn Embedded>, want: &[u8]) -> bool {
    drawn(rt, alloc, object).as_slice() == want
}

fn stored_once(alloc: Global, object: &Box<dyn Embedded>) -> Result<Streams, EmbedFault> {
    begin(alloc);
    let streams = object.save(alloc);
    end(alloc);
    streams
}

/// What it is stored as, asked for again where memory is refused.
fn stored(rt: &impl Abort, alloc: Global, object: &Box<dyn Embedded>) -> Streams {
    match stored_once(alloc, object) {
        Err(EmbedFault::NoMemory) => stored_once(alloc, object).expect(rt, "memory"),
        streams => streams.expect(rt, "streams"),
    }
}

/// Whether an object is stored in one stream, of this name and with these bytes.
fn is_stored(
    rt: &impl Abort,
    alloc: Global,
    object: &Box<dyn Embedded>,
    name: &str,
    want: &[u8],
) -> bool {
    let streams = stored(rt, alloc, object);
    match streams.as_slice() {
        [stream] => { stream.name.as_bytes() == name.as_bytes() && stream.bytes.as_slice() == want }
        _ => false,
    }
}
