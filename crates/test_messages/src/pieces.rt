//! Frames in pieces. Tables are texts, a row a line: a text costs the same to prove however many rows it has.

ghost use Rattle.std.specs.Prelude.{◌<◌};

use crate::contents::bytes;
use crate::texts::{number, spelled, word};
use message_bytes::decoder::Decoder;
use message_bytes::encode::{encode, encode_into};
use message_model::fault::WireFault;
use message_model::frame::Frame;
use message_values::message::{Message, Said};
use message_values::operation::Operation;
use std::alloc::Global;
use std::process::Abort;
use tree_streams::stored::Stored;
use tree_streams::streams::Streams;

/// Bytes that are fed, how that is answered, and what comes then. A call of UiDeactivate under 1, 2, 3 in session 1
/// comes with its last byte; behind it a frame of no kind is refused, and so is all from then on.
const FED: &str = ". ok none
4f ok none
4c ok none
43 ok none
4d ok none
02 ok none
01 ok none
11 ok none
00 ok none
00 ok none
00 ok none
01 ok none
00 ok none
00 ok none
00 ok none
01 ok none
00 ok none
00 ok none
00 ok none
02 ok none
00 ok none
00 ok none
00 ok none
03 ok none
00 ok none
00 ok none
00 ok none
05 ok UiDeactivate
4f4c434d,02 ok none
09 BadKind BadKind
00 BadKind BadKind
00 BadKind BadKind";

fn is_deactivate(frame: &Frame) -> bool {
    match frame {
        Frame::Message(
            Message {
                session: 1,
                said: Said::Call {
                    inc: 1,
                    act: 2,
                    n: 3,
                    operation: Operation::UiDeactivate,
                },
            },
        ) => true,
        _ => false,
    }
}

fn fed(decoder: &mut Decoder, piece: &[u8]) -> &'static str {
    match decoder.feed(piece) {
        Ok(()) => "ok",
        Err(fault) => fault.name(),
    }
}

fn came(decoder: &mut Decoder) -> &'static str {
    match decoder.next() {
        Ok(None) => "none",
        Ok(Some(frame)) if is_deactivate(&frame) => "UiDeactivate",
        Ok(Some(_)) => "another",
        Err(fault) => fault.name(),
    }
}

/// Whether a decoder takes what a row feeds, and gives what it wants.
fn takes(rt: &impl Abort, alloc: Global, decoder: &mut Decoder, row: &str) -> bool {
    let mut words = row.split_whitespace();
    let piece = spelled(rt, alloc, word(&mut words));
    let answer = fed(decoder, &piece);
    answer == word(&mut words) && came(decoder) == word(&mut words)
}

#[test]
fn a_call_comes_byte_by_byte(rt: HostRuntime) {
    let mut decoder = Decoder::new(rt.alloc());
    for row in FED.split('\n') {
        assert!(rt; takes(&rt, rt.alloc(), &mut decoder, row), "{row}");
    }
}

/// The fault that bytes show, fed one by one, and after how many of them.
fn shown(alloc: Global, bytes: &[u8]) -> (usize, Option<WireFault>) {
    let mut decoder = Decoder::new(alloc);
    for (i, byte) in bytes.iter().enumerate() {
        match decoder.feed(&[*byte]) {
            Ok(()) => {}
            Err(fault) => return (i, Some(fault)),
        }
    }
    (bytes.len(), None)
}

/// Bytes, the one at which a fault is shown, and the fault: of the magic, the version, the kind, the length; a turn
/// with a body, an ask with the number 0, a byte past the last field, a call without a body; a call, a reply, a write
/// and an ask of session 0; a call of version 1 with its body, and an ask without a session.
const FAULTS: &str = "0001020304 3 BadMagic
4f4c434d,01,01 4 BadVersion
4f4c434d,03,01 4 BadVersion
4f4c434d,02,00,01 5 BadKind
4f4c434d,02,09 5 BadKind
4f4c434d,02,05,01001000,00 9 TooLong
4f4c434d,02,05,02000000,010101 11 BadField
4f4c434d,02,04,10000000,01000000,01000000,00000000,03000000 25 BadField
4f4c434d,02,04,11000000,01000000,01000000,02000000,03000000,00 26 BadField
4f4c434d,02,01,00000000 9 BadField
4f4c434d,02,01,11000000,00000000,01000000,02000000,03000000,05 26 BadField
4f4c434d,02,02,11000000,00000000,01000000,02000000,03000000,00 26 BadField
4f4c434d,02,03,19000000,00000000,01000000,02000000,03000000,04000000,00,00000000 34 BadField
4f4c434d,02,04,10000000,00000000,01000000,02000000,03000000 25 BadField
4f4c434d,01,01,0d000000,01000000,02000000,03000000,05 4 BadVersion
4f4c434d,02,04,0c000000,01000000,02000000,03000000 21 BadField";

/// Whether bytes show this fault with the byte at this place.
pub(crate) fn is_shown_at(alloc: Global, bytes: &[u8], at: usize, want: &str) -> bool {
    let (place, fault) = shown(alloc, bytes);
    place == at && name(fault) == want
}

/// Whether bytes show the fault of a row where it says.
fn is_shown(rt: &impl Abort, alloc: Global, row: &str) -> bool {
    let mut words = row.split_whitespace();
    let bytes = spelled(rt, alloc, word(&mut words));
    let at = number(word(&mut words));
    is_shown_at(alloc, &bytes, at, word(&mut words))
}

fn name(fault: Option<WireFault>) -> &'static str {
    match fault {
        Some(fault) => fault.name(),
        None => "none",
    }
}

#[test]
fn faults_are_shown_by_their_bytes(rt: HostRuntime) {
    for row in FAULTS.split('\n') {
        assert!(rt; is_shown(&rt, rt.alloc(), row), "{row}");
    }
}

/// A call's head and its numbers, of which no more is there.
fn is_begun(alloc: Global, bytes: &[u8]) -> bool {
    let mut decoder = Decoder::new(alloc);
    fed(&mut decoder, bytes) == "ok" && came(&mut decoder) == "none"
}

/// The beginning of a write whose body has 1,048,576 bytes: its head, and ten bytes of its numbers.
const LONG: &str = "4f4c434d,02,03,00001000,01000000,01000000,0100";

fn write_of(content: Stored) -> Frame {
    let said = Said::Write {
        inc: 1,
        act: 1,
        s: 1,
        w: 1,
        content,
    };
    Frame::Message(Message { session: 1, said })
}

/// A write of so many bytes in its picture.
fn write(rt: &impl Abort, alloc: Global, count: usize) -> Frame {
    let picture = bytes(rt, alloc, count);
    let streams = Streams::new(alloc);
    write_of(Stored { streams, picture })
}

/// Feeds bytes in pieces of this length, each again where memory is refused.
pub(crate) fn feed_all(rt: &impl Abort, decoder: &mut Decoder, bytes: &[u8], len: usize)
    requires { 0 < len }
{
    for piece in bytes.chunks(len) {
        feed(decoder, piece).expect(rt, "a good piece");
    }
}

fn feed(decoder: &mut Decoder, piece: &[u8]) -> Result<(), WireFault> {
    match decoder.feed(piece) {
        Err(WireFault::NoMemory) => decoder.feed(piece),
        fed => fed,
    }
}

pub(crate) fn encoded(rt: &impl Abort, alloc: Global, frame: &Frame) -> Vec<u8> {
    encode(alloc, frame).expect(rt, "a frame that fits")
}

fn is_spelled(rt: &impl Abort, alloc: Global, frame: &Frame, spelled: &[u8]) -> bool {
    encoded(rt, alloc, frame).as_slice() == spelled
}

/// Whether a frame's bytes are put behind those that stand there.
fn is_added(rt: &impl Abort, alloc: Global, frame: &Frame, large: &[u8]) -> bool {
    let mut out = encoded(rt, alloc, &Frame::Turn);
    let len = out.len();
    encode_into(&mut out, frame).expect(rt, "a frame that fits");
    out.get(len..) == Some(large)
}

/// Whether the next frame is spelled so, where one comes.
pub(crate) fn next_is(
    rt: &impl Abort,
    alloc: Global,
    decoder: &mut Decoder,
    spelled: &[u8],
) -> Option<bool> {
    match decoder.next().expect(rt, "good bytes") {
        Some(frame) => Some(is_spelled(rt, alloc, &frame, spelled)),
        None => None,
    }
}

/// Whether a frame comes of bytes in pieces of this length, and is spelled as it came.
pub(crate) fn comes_in_pieces(rt: &impl Abort, alloc: Global, spelled: &[u8], len: usize) -> bool
    requires { 0 < len }
{
    let mut decoder = Decoder::new(alloc);
    feed_all(rt, &mut decoder, spelled, len);
    next_is(rt, alloc, &mut decoder, spelled) == Some(true)
}

/// Whether a write is too large to be spelled.
fn is_too_large(rt: &impl Abort, alloc: Global, count: usize) -> bool {
    match encode(alloc, &write(rt, alloc, count)) {
        Err(fault) => fault == WireFault::BadField,
        Ok(_) => false,
    }
}

fn comes(rt: &impl Abort, alloc: Global, large: &[u8]) -> bool {
    comes_in_pieces(rt, alloc, large, 1) && comes_in_pieces(rt, alloc, large, 4096)
}

fn first(large: &[u8]) -> &[u8] {
    large.get(..30).unwrap_or(&[])
}

#[test]
fn a_large_write_comes_in_pieces(rt: HostRuntime) {
    let large = encoded(&rt, rt.alloc(), &write(&rt, rt.alloc(), 262_144));
    assert!(rt; large.len() == 10 + 20 + 1 + 4 + 262_144);
    assert!(rt; is_added(&rt, rt.alloc(), &write(&rt, rt.alloc(), 262_144), &large));
    assert!(rt; comes(&rt, rt.alloc(), &large));
    assert!(rt; is_begun(rt.alloc(), first(&large)));
}

#[test]
fn a_write_may_be_too_large(rt: HostRuntime) {
    assert!(rt; is_begun(rt.alloc(), &spelled(&rt, rt.alloc(), LONG)));
    assert!(rt; is_too_large(&rt, rt.alloc(), 262_145));
}
