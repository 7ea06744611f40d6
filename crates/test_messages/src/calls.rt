//! Calls, as rows spell them.

use crate::words::{halves, number};
use cfb_names::name::named;
use message_values::message::{Message, Said};
use message_values::operation::Operation;
use object_core::{Bytes, Stored, Streams, classes};
use object_state::CloseOption;
use std::alloc::Global;
use std::process::Abort;
use tree_streams::streams::NamedStream;
use tree_values::class_id::ClassId;

/// The session of the servers.
pub(crate) const SESSION: u32 = 1;

fn bytes_of(rt: &impl Abort, alloc: Global, text: &str) -> Bytes {
    Bytes::from_slice(alloc, text.as_bytes()).expect(rt, "memory")
}

fn push(rt: &impl Abort, streams: &mut Streams, bytes: Bytes) {
    let name = named(b"Text").expect(rt, "a name");
    streams
        .push(NamedStream { name, bytes })
        .expect(rt, "the first stream");
}

/// A text as a note stores it, with a picture that isn't its own.
fn stored(rt: &impl Abort, alloc: Global, text: &str) -> Stored {
    let mut streams = Streams::new(alloc);
    push(rt, &mut streams, bytes_of(rt, alloc, text));
    let picture = bytes_of(rt, alloc, "no picture of it");
    Stored { streams, picture }
}

fn class(name: &str) -> ClassId {
    match name.as_bytes() {
        [b'n', ..] => classes::note(),
        _ => classes::table(),
    }
}

/// `init KIND`, `load TEXT`, `edit BYTES`, `save K`, `completed K` with a storage, `in_place`, `activate GRANT`,
/// `close`, or `keep`, which is a close with the content as its answer.
fn operation(rt: &impl Abort, alloc: Global, text: &str) -> Operation {
    let (verb, rest) = halves(text, " ");
    match verb.as_bytes() {
        [b'i', b'n', b'_', ..] => Operation::InPlace,
        [b'i', ..] => Operation::InitNew(class(rest)),
        [b'l', ..] => Operation::Load(classes::note(), stored(rt, alloc, rest)),
        [b'e', ..] => Operation::Edit(bytes_of(rt, alloc, rest)),
        [b's', ..] => Operation::Save(number(rest)),
        [b'c', b'o', ..] => Operation::SaveCompleted {
            save: number(rest),
            storage: true,
        },
        [b'a', ..] => Operation::UiActivate(number(rest)),
        [b'k', ..] => Operation::Close(CloseOption::SaveIfDirty),
        _ => Operation::Close(CloseOption::NoSave),
    }
}

/// `INC ACT N HANDED OPERATION`: what is handed in, and the call, in a session.
pub(crate) fn call<'a>(
    rt: &impl Abort,
    alloc: Global,
    session: u32,
    row: &'a str,
) -> (&'a str, Message) {
    let (inc, rest) = halves(row, " ");
    let (act, rest) = halves(rest, " ");
    let (n, rest) = halves(rest, " ");
    let (handed, rest) = halves(rest, " ");
    let said = Said::Call {
        inc: number(inc),
        act: number(act),
        n: number(n),
        operation: operation(rt, alloc, rest),
    };
    (handed, Message { session, said })
}
