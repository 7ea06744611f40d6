//! The worked exchange of docs/protocol.md, byte for byte.

use crate::contents::{bytes_of, put};
use crate::frames::first_bad_cut;
use crate::pieces::encoded;
use crate::texts::push;
use message_model::frame::Frame;
use message_values::answer::Answer;
use message_values::message::{Message, Said};
use message_values::operation::Operation;
use message_values::refusal::Refusal;
use object_state::{CloseOption, Menus};
use std::alloc::Global;
use std::process::Abort;
use tree_streams::stored::Stored;
use tree_values::class_id::ClassId;

/// What is said in the first session.
fn said(said: Said) -> Frame {
    Frame::Message(Message { session: 1, said })
}

/// A call of the first activation of the first server.
fn call(n: u32, operation: Operation) -> Frame {
    said(Said::Call {
        inc: 1,
        act: 1,
        n,
        operation,
    })
}

/// Its reply.
fn reply(n: u32, answer: Answer) -> Frame {
    said(Said::Reply {
        inc: 1,
        act: 1,
        n,
        answer,
    })
}

/// A write of it.
fn write(s: u32, w: u32, content: Stored) -> Frame {
    said(Said::Write {
        inc: 1,
        act: 1,
        s,
        w,
        content,
    })
}

/// Its wish to give its frame back.
fn ask(g: u32) -> Frame {
    said(Said::Ask { inc: 1, act: 1, g })
}

/// A note of `ab`.
fn content(rt: &impl Abort, alloc: Global) -> Stored {
    let mut stored = Stored::new(alloc);
    put(rt, &mut stored, "Text", bytes_of(rt, alloc, "ab"));
    stored
}

fn edit(rt: &impl Abort, alloc: Global, n: u32, text: &str) -> Frame {
    call(n, Operation::Edit(bytes_of(rt, alloc, text)))
}

/// The class of notes.
const NOTE: [u8; 16] = [
    0x01, 0x2a, 0x1d, 0x6f, 0x4b, 0x3c, 0x5f, 0x4e, 0x8a, 0x9b, 0x0c, 0x1d, 0x2e, 0x3f, 0x40, 0x51,
];

/// What the note wants of its frame.
fn tools(rt: &impl Abort) -> Frame {
    let menus = Menus::new(b"Edit", b"Note", b"Help").expect(rt, "three texts");
    let border = [0, 1, 0, 0];
    reply(4, Answer::Tools { menus, border })
}

/// The bytes of the exchange in hexadecimal.
const TEXTS: &str =
    "4f4c434d0201210000000100000001000000010000000100000001012a1d6f4b3c5f4e8a9b0c1d2e3f4051
4f4c434d020500000000
4f4c434d0202110000000100000001000000010000000100000000
4f4c434d020500000000
4f4c434d02011b000000010000000100000001000000020000000806000000692030206162
4f4c434d0202110000000100000001000000010000000200000000
4f4c434d020324000000010000000100000001000000010000000100000001045465787402000000616200000000
4f4c434d0201110000000100000001000000010000000300000003
4f4c434d0202110000000100000001000000010000000300000000
4f4c434d020115000000010000000100000001000000040000000401000000
4f4c434d02022800000001000000010000000100000004000000030445646974044e6f74650448656c700000010000000000
4f4c434d02041000000001000000010000000100000001000000
4f4c434d0201110000000100000001000000010000000500000005
4f4c434d0202110000000100000001000000010000000500000000
4f4c434d020115000000010000000100000001000000060000000901000000
4f4c434d020221000000010000000100000001000000060000000201045465787402000000616200000000
4f4c434d020116000000010000000100000001000000070000000b0100000000
4f4c434d0202110000000100000001000000010000000700000000
4f4c434d02011a0000000100000001000000010000000800000008050000006420392031
4f4c434d020212000000010000000100000001000000080000000101
4f4c434d0201110000000100000001000000010000000900000006
4f4c434d0202110000000100000001000000010000000900000000
4f4c434d0201120000000100000001000000010000000a0000000d00
4f4c434d0202210000000100000001000000010000000a0000000201045465787402000000616200000000";

/// The frames of the first half.
fn first_frame(rt: &impl Abort, alloc: Global, at: usize) -> Frame {
    match at {
        0 => call(1, Operation::InitNew(ClassId::from_bytes(NOTE))),
        1 => Frame::Turn,
        2 => reply(1, Answer::Done),
        3 => Frame::Turn,
        4 => edit(rt, alloc, 2, "i 0 ab"),
        5 => reply(2, Answer::Done),
        6 => write(1, 1, content(rt, alloc)),
        7 => call(3, Operation::InPlace),
        8 => reply(3, Answer::Done),
        9 => call(4, Operation::UiActivate(1)),
        10 => tools(rt),
        _ => ask(1),
    }
}

/// The frames of the last half.
fn last_frame(rt: &impl Abort, alloc: Global, at: usize) -> Frame {
    match at {
        12 => call(5, Operation::UiDeactivate),
        13 => reply(5, Answer::Done),
        14 => call(6, Operation::Save(1)),
        15 => reply(6, Answer::Content(content(rt, alloc))),
        16 => call(
            7,
            Operation::SaveCompleted {
                save: 1,
                storage: false,
            },
        ),
        17 => reply(7, Answer::Done),
        18 => edit(rt, alloc, 8, "d 9 1"),
        19 => reply(8, Answer::Refused(Refusal::BadEdit)),
        20 => call(9, Operation::InPlaceDeactivate),
        21 => reply(9, Answer::Done),
        22 => call(10, Operation::Close(CloseOption::SaveIfDirty)),
        _ => reply(10, Answer::Content(content(rt, alloc))),
    }
}

/// A digit of hexadecimal in lower case.
fn digit(value: u8) -> u8 {
    match value {
        0..=9 => b'0' + value,
        10..=15 => b'a' + (value - 10),
        _ => b'?',
    }
}

/// Bytes in hexadecimal.
fn hexadecimal(rt: &impl Abort, alloc: Global, items: &[u8]) -> Vec<u8> {
    let mut text = Vec::new(alloc);
    for item in items {
        push(rt, &mut text, digit(*item / 16));
        push(rt, &mut text, digit(*item % 16));
    }
    text
}

/// A frame of the exchange.
fn frame_at(rt: &impl Abort, alloc: Global, at: usize) -> Frame {
    if at < 12 {
        first_frame(rt, alloc, at)
    } else {
        last_frame(rt, alloc, at)
    }
}

/// Whether a frame is spelled so, and comes again wherever it is cut.
fn is_spelled(rt: &impl Abort, alloc: Global, at: usize, text: &str) -> bool {
    let spelled = encoded(rt, alloc, &frame_at(rt, alloc, at));
    hexadecimal(rt, alloc, &spelled).as_slice() == text.as_bytes()
        && first_bad_cut(rt, alloc, &spelled).is_none()
}

#[test]
fn the_exchange_is_as_it_is_written(rt: HostRuntime) {
    for (at, text) in TEXTS.split('\n').enumerate() {
        assert!(rt; is_spelled(&rt, rt.alloc(), at, text), "{text}");
    }
}
