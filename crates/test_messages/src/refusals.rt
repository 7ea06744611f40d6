//! Calls that want memory, made again where it is refused. `tests/refused_memory` refuses one request after another.

ghost use Rattle.std.specs.Prelude.{◌<◌};

use crate::pieces::{encoded, next_is};
use crate::texts::spelled;
use crate::{frames, long_frames};
use message_bytes::decoder::Decoder;
use message_bytes::encode::{encode, encode_into};
use message_model::fault::WireFault;
use message_model::frame::Frame;
use message_values::message::Message;
use std::alloc::{AllocError, Global};
use std::process::Abort;
use test_marks::marks::{begin, end};

/// How many frames there are: short ones and long ones.
const FRAMES: u32 = 24;

fn frame_at(rt: &impl Abort, alloc: Global, at: u32) -> Frame {
    if at < 20 {
        frames::frame_at(rt, alloc, at)
    } else {
        long_frames::frame_at(rt, alloc, at - 20)
    }
}

/// Feeds a piece while memory may be refused.
fn fed(alloc: Global, decoder: &mut Decoder, piece: &[u8]) -> Result<(), WireFault> {
    begin(alloc);
    let fed = decoder.feed(piece);
    end(alloc);
    fed
}

/// Whether no frame waits.
fn is_dry(decoder: &mut Decoder) -> bool {
    match decoder.next() {
        Ok(None) => true,
        _ => false,
    }
}

/// Whether a piece is taken. One that is refused for want of memory gives no frame, and is fed again.
fn takes(alloc: Global, decoder: &mut Decoder, piece: &[u8]) -> bool {
    match fed(alloc, decoder, piece) {
        Ok(()) => true,
        Err(WireFault::NoMemory) => is_dry(decoder) && decoder.feed(piece).is_ok(),
        Err(_) => false,
    }
}

/// Whether bytes in pieces of this length come as one frame, spelled as it came.
fn comes(rt: &impl Abort, alloc: Global, bytes: &[u8], len: usize) -> bool
    requires { 0 < len }
{
    let mut decoder = Decoder::new(alloc);
    for piece in bytes.chunks(len) {
        if !takes(alloc, &mut decoder, piece) {
            return false;
        }
    }
    next_is(rt, alloc, &mut decoder, bytes) == Some(true)
}

/// Whether two frames come of one piece.
fn come_at_once(rt: &impl Abort, alloc: Global, bytes: &[u8]) -> bool {
    let mut both = Vec::from_slice(alloc, bytes).expect(rt, "memory");
    both.extend_from_slice(bytes).expect(rt, "memory");
    let mut decoder = Decoder::new(alloc);
    takes(alloc, &mut decoder, &both)
        && next_is(rt, alloc, &mut decoder, bytes) == Some(true)
        && next_is(rt, alloc, &mut decoder, bytes) == Some(true)
}

fn is_fed(rt: &impl Abort, alloc: Global, at: u32) -> bool {
    let bytes = encoded(rt, alloc, &frame_at(rt, alloc, at));
    comes(rt, alloc, &bytes, 1)
        && comes(rt, alloc, &bytes, 11)
        && comes(rt, alloc, &bytes, 4096)
        && come_at_once(rt, alloc, &bytes)
}

#[test]
fn a_refused_piece_is_fed_again(rt: HostRuntime) {
    for at in 0..FRAMES {
        assert!(rt; is_fed(&rt, rt.alloc(), at), "frame {at}");
    }
}

/// The beginnings of two writes, of 26 bytes each: their heads, and sixteen bytes of their numbers. One has a body of
/// 1,048,576 bytes, and the other one of 262,169.
const BEGUN: &str = "4f4c434d,02,03,00001000,01000000,01000000,01000000,01000000
4f4c434d,02,03,19000400,01000000,01000000,01000000,01000000";

/// Whether the beginning of a write is taken without memory, and no frame comes of it.
fn is_begun(alloc: Global, bytes: &[u8]) -> bool {
    let mut decoder = Decoder::new(alloc);
    fed(alloc, &mut decoder, bytes).is_ok() && is_dry(&mut decoder)
}

#[test]
fn a_write_is_begun_without_memory(rt: HostRuntime) {
    for row in BEGUN.split('\n') {
        let bytes = spelled(&rt, rt.alloc(), row);
        assert!(rt; bytes.len() == 26 && is_begun(rt.alloc(), &bytes), "{row}");
    }
}

fn encoded_once(alloc: Global, frame: &Frame) -> Result<Vec<u8>, WireFault> {
    begin(alloc);
    let bytes = encode(alloc, frame);
    end(alloc);
    bytes
}

/// Whether a frame is spelled so, at the second try where memory is refused at the first.
fn is_spelled(rt: &impl Abort, alloc: Global, frame: &Frame, want: &[u8]) -> bool {
    match encoded_once(alloc, frame) {
        Ok(bytes) => bytes.as_slice() == want,
        Err(WireFault::NoMemory) => encoded(rt, alloc, frame).as_slice() == want,
        Err(_) => false,
    }
}

fn added(alloc: Global, out: &mut Vec<u8>, frame: &Frame) -> Result<(), WireFault> {
    begin(alloc);
    let added = encode_into(out, frame);
    end(alloc);
    added
}

/// Whether a frame's bytes are put behind others. Where memory is refused for them, nothing is added.
fn is_added(rt: &impl Abort, alloc: Global, frame: &Frame, want: &[u8]) -> bool {
    let mut out = encoded(rt, alloc, &Frame::Turn);
    let len = out.len();
    let is_taken = match added(alloc, &mut out, frame) {
        Ok(()) => true,
        Err(WireFault::NoMemory) => out.len() == len && encode_into(&mut out, frame).is_ok(),
        Err(_) => false,
    };
    is_taken && out.get(len..) == Some(want)
}

#[test]
fn a_refused_frame_is_spelled_again(rt: HostRuntime) {
    for at in 0..FRAMES {
        let frame = frame_at(&rt, rt.alloc(), at);
        let want = encoded(&rt, rt.alloc(), &frame);
        assert!(rt; is_spelled(&rt, rt.alloc(), &frame, &want), "frame {at}");
        assert!(rt; is_added(&rt, rt.alloc(), &frame, &want), "frame {at}");
    }
}

fn copied_once(alloc: Global, message: &Message) -> Result<Message, AllocError> {
    begin(alloc);
    let copy = message.copy(alloc);
    end(alloc);
    copy
}

fn copied(rt: &impl Abort, alloc: Global, message: &Message) -> Message {
    match copied_once(alloc, message) {
        Ok(copy) => copy,
        Err(_) => message.copy(alloc).expect(rt, "memory"),
    }
}

/// Whether a copy of what a frame says is spelled as the frame is.
fn is_copied(rt: &impl Abort, alloc: Global, frame: &Frame) -> bool {
    let want = encoded(rt, alloc, frame);
    match frame {
        Frame::Message(message) => {
            let copy = Frame::Message(copied(rt, alloc, message));
            encoded(rt, alloc, &copy).as_slice() == want.as_slice()
        }
        _ => true,
    }
}

#[test]
fn a_refused_copy_is_made_again(rt: HostRuntime) {
    for at in 0..FRAMES {
        assert!(rt;
            is_copied(&rt, rt.alloc(), &frame_at(&rt, rt.alloc(), at)),
            "frame {at}"
        );
    }
}
