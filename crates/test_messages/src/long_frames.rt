//! Frames of more than 86 bytes, whose blobs come in pieces.

ghost use Rattle.std.specs.Prelude.{◌<◌};

use crate::contents::{bytes, put};
use crate::frames::first_bad_cut;
use crate::pieces::{comes_in_pieces, encoded, feed_all, is_shown_at, next_is};
use crate::texts::{number, spelled, word};
use message_bytes::decoder::Decoder;
use message_model::frame::Frame;
use message_values::answer::Answer;
use message_values::message::{Message, Said};
use message_values::operation::Operation;
use std::alloc::Global;
use std::process::Abort;
use tree_streams::stored::Stored;
use tree_values::class_id::ClassId;

/// A stream of no bytes, one of 50, and a picture of 30.
fn content(rt: &impl Abort, alloc: Global) -> Stored {
    let mut stored = Stored::new(alloc);
    put(rt, &mut stored, "b", bytes(rt, alloc, 0));
    put(rt, &mut stored, "Text", bytes(rt, alloc, 50));
    stored.picture = bytes(rt, alloc, 30);
    stored
}

/// What is said in session 5.
fn said(said: Said) -> Frame {
    Frame::Message(Message { session: 5, said })
}

/// A call under 1, 2, 3.
fn call(operation: Operation) -> Frame {
    said(Said::Call {
        inc: 1,
        act: 2,
        n: 3,
        operation,
    })
}

/// The four that have blobs.
pub(crate) fn frame_at(rt: &impl Abort, alloc: Global, at: u32) -> Frame {
    match at {
        0 => call(Operation::Edit(bytes(rt, alloc, 90))),
        1 => call(Operation::Load(ClassId::from_bytes([7; 16]), content(rt, alloc))),
        2 => said(Said::Reply {
            inc: 1,
            act: 2,
            n: 3,
            answer: Answer::Content(content(rt, alloc)),
        }),
        _ => said(Said::Write {
            inc: 1,
            act: 2,
            s: 3,
            w: 4,
            content: content(rt, alloc),
        }),
    }
}

fn spelled_at(rt: &impl Abort, alloc: Global, at: u32) -> Vec<u8> {
    let frame = frame_at(rt, alloc, at);
    encoded(rt, alloc, &frame)
}

fn comes_however(rt: &impl Abort, alloc: Global, at: u32) -> bool {
    let bytes = spelled_at(rt, alloc, at);
    86 < bytes.len()
        && first_bad_cut(rt, alloc, &bytes).is_none()
        && comes_in_pieces(rt, alloc, &bytes, 1)
}

#[test]
fn long_frames_come_again_however_they_are_cut(rt: HostRuntime) {
    for at in 0..4 {
        assert!(rt; comes_however(&rt, rt.alloc(), at), "frame {at}");
    }
}

/// How many frames come, where each is spelled so; none where one isn't.
fn count(
    rt: &impl Abort,
    alloc: Global,
    decoder: &mut Decoder,
    most: usize,
    spelled: &[u8],
) -> Option<usize> {
    for count in 0..most {
        match next_is(rt, alloc, decoder, spelled) {
            Some(true) => {}
            Some(false) => return None,
            None => return Some(count),
        }
    }
    None
}

/// Whether three frames come of bytes in pieces of this length, each spelled so.
fn three_come(rt: &impl Abort, alloc: Global, all: &[u8], len: usize, spelled: &[u8]) -> bool
    requires { 0 < len }
{
    let mut decoder = Decoder::new(alloc);
    feed_all(rt, &mut decoder, all, len);
    count(rt, alloc, &mut decoder, all.len(), spelled) == Some(3)
}

fn thrice(rt: &impl Abort, alloc: Global, spelled: &[u8]) -> Vec<u8> {
    let mut all = Vec::new(alloc);
    for _ in 0..3 {
        all.extend_from_slice(spelled).expect(rt, "memory");
    }
    all
}

#[test]
fn long_frames_come_one_behind_the_other(rt: HostRuntime) {
    let spelled = spelled_at(&rt, rt.alloc(), 3);
    let all = thrice(&rt, rt.alloc(), &spelled);
    for len in [1, 60, 131, 200, 390] {
        assert!(rt;
            three_come(&rt, rt.alloc(), &all, len, &spelled),
            "pieces of {len}"
        );
    }
}

/// A byte of a frame of 130 bytes, and another in its place: the kind, the session, a number, the count, the lengths of
/// a name, a name, the lengths of a stream and of the picture.
const CHANGED: &str = "5 01
5 02
5 04
5 05
10 00
14 00
30 09
31 00
31 20
32 2f
42 ff
96 1d
96 1f";

fn changed(rt: &impl Abort, alloc: Global, at: usize, byte: &str) -> Vec<u8> {
    let mut bytes = spelled_at(rt, alloc, 3);
    put_byte(&mut bytes, at, &spelled(rt, alloc, byte));
    bytes
}

fn put_byte(bytes: &mut [u8], at: usize, changed: &[u8]) {
    if let (Some(place), Some(byte)) = (bytes.get_mut(at), changed.first()) {
        *place = *byte;
    }
}

/// Whether a frame that is fed byte by byte, with one of them changed, is shown bad by its last.
fn is_bad(rt: &impl Abort, alloc: Global, row: &str) -> bool {
    let mut words = row.split_whitespace();
    let at = number(word(&mut words));
    let bytes = changed(rt, alloc, at, word(&mut words));
    bytes.len() == 130 && is_shown_at(alloc, &bytes, 129, "BadField")
}

#[test]
fn bad_long_frames_are_shown_by_their_last_byte(rt: HostRuntime) {
    for row in CHANGED.split('\n') {
        assert!(rt; is_bad(&rt, rt.alloc(), row), "{row}");
    }
}
