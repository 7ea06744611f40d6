ghost use Rattle.std.specs.Prelude.{◌≤◌, length};

use crate::contents::{bytes_of, put};
use crate::pieces::{encoded, next_is};
use crate::texts::spelled;
use message_bodies::body::{BodyFault, number_in, read_body};
use message_bytes::decoder::Decoder;
use message_model::codes::Kind;
use message_model::frame::Frame;
use message_values::answer::Answer;
use message_values::message::{Message, Said};
use message_values::operation::Operation;
use message_values::refusal::Refusal;
use object_state::{CloseOption, Menus};
use std::alloc::Global;
use std::process::Abort;
use tree_streams::stored::Stored;
use tree_values::class_id::ClassId;

/// What is said in session 1.
fn said(said: Said) -> Frame {
    Frame::Message(Message { session: 1, said })
}

/// The call of an operation under 1, 2, 3.
fn call(operation: Operation) -> Frame {
    said(Said::Call {
        inc: 1,
        act: 2,
        n: 3,
        operation,
    })
}

/// The reply of an answer under 1, 2, 3.
fn reply(answer: Answer) -> Frame {
    said(Said::Reply {
        inc: 1,
        act: 2,
        n: 3,
        answer,
    })
}

/// Two streams and a picture.
fn content(rt: &impl Abort, alloc: Global) -> Stored {
    let mut stored = Stored::new(alloc);
    put(rt, &mut stored, "b", bytes_of(rt, alloc, "ab"));
    put(rt, &mut stored, "Text", bytes_of(rt, alloc, "ab"));
    stored.picture = bytes_of(rt, alloc, "pic");
    stored
}

/// A Load.
fn load(rt: &impl Abort, alloc: Global) -> Frame {
    call(Operation::Load(ClassId::from_bytes([7; 16]), content(rt, alloc)))
}

/// What an object wants of its frame.
fn tools(rt: &impl Abort) -> Frame {
    let menus = Menus::new(b"Edit", b"", b"Help").expect(rt, "three texts");
    let border = [0, 1, 258, 3];
    reply(Answer::Tools { menus, border })
}

/// A write.
fn write(rt: &impl Abort, alloc: Global) -> Frame {
    said(Said::Write {
        inc: 1,
        act: 2,
        s: 3,
        w: 4,
        content: content(rt, alloc),
    })
}

/// Frames of each kind, each operation and each answer.
pub(crate) fn frame_at(rt: &impl Abort, alloc: Global, at: u32) -> Frame {
    match at {
        0 => call(Operation::InitNew(ClassId::from_bytes([7; 16]))),
        1 => load(rt, alloc),
        2 => call(Operation::InPlace),
        3 => call(Operation::UiActivate(5)),
        4 => call(Operation::UiDeactivate),
        5 => call(Operation::InPlaceDeactivate),
        6 => call(Operation::OpenWindow),
        7 => call(Operation::Edit(bytes_of(rt, alloc, "i 0 a"))),
        8 => call(Operation::Save(256)),
        9 => call(Operation::HandsOff),
        10 => call(Operation::SaveCompleted {
            save: 9,
            storage: true,
        }),
        11 => call(Operation::SaveDropped(9)),
        12 => call(Operation::Close(CloseOption::NoSave)),
        13 => reply(Answer::Done),
        14 => reply(Answer::Refused(Refusal::NeedsStorage)),
        15 => reply(Answer::Content(content(rt, alloc))),
        16 => tools(rt),
        17 => write(rt, alloc),
        18 => said(Said::Ask {
            inc: 1,
            act: 2,
            g: 3,
        }),
        _ => Frame::Turn,
    }
}

/// Feeds bytes, and what comes then: whether it is spelled so.
fn next_of(
    rt: &impl Abort,
    alloc: Global,
    decoder: &mut Decoder,
    piece: &[u8],
    spelled: &[u8],
) -> Option<bool> {
    decoder.feed(piece).expect(rt, "a good piece");
    next_is(rt, alloc, decoder, spelled)
}

/// Whether bytes in two pieces come as one frame with the second, spelled as it came.
fn comes_again(rt: &impl Abort, alloc: Global, spelled: &[u8], cut: usize) -> bool
    requires { cut ≤ length spelled.now }
{
    let (front, back) = spelled.split_at(cut);
    let mut decoder = Decoder::new(alloc);
    next_of(rt, alloc, &mut decoder, front, spelled).is_none()
        && next_of(rt, alloc, &mut decoder, back, spelled) == Some(true)
}

/// The first place where bytes that are cut there don't come again as one frame.
pub(crate) fn first_bad_cut(rt: &impl Abort, alloc: Global, spelled: &[u8]) -> Option<usize> {
    for cut in 0..spelled.len() {
        if !comes_again(rt, alloc, spelled, cut) {
            return Some(cut);
        }
    }
    None
}

fn comes_at_every_cut(rt: &impl Abort, alloc: Global, at: u32) -> bool {
    let frame = frame_at(rt, alloc, at);
    first_bad_cut(rt, alloc, &encoded(rt, alloc, &frame)).is_none()
}

#[test]
fn each_frame_comes_again_at_every_cut(rt: HostRuntime) {
    for at in 0..20 {
        assert!(rt; comes_at_every_cut(&rt, rt.alloc(), at), "frame {at}");
    }
}

/// The call of UiDeactivate under 1, 2, 3 in session 1, byte for byte.
const CALL: &str = "4f4c434d,02,01,11000000,01000000,01000000,02000000,03000000,05";

fn is_call(rt: &impl Abort, alloc: Global, bytes: &[u8]) -> bool {
    encoded(rt, alloc, &call(Operation::UiDeactivate)).as_slice() == bytes
}

#[test]
fn a_call_is_as_it_is_written(rt: HostRuntime) {
    let bytes = spelled(&rt, rt.alloc(), CALL);
    assert!(rt; is_call(&rt, rt.alloc(), &bytes));
    assert!(rt; first_bad_cut(&rt, rt.alloc(), &bytes).is_none());
}

/// Whether the body of a turn is read whole, or is bad.
fn is_turn(alloc: Global, body: &[u8]) -> Option<bool> {
    match read_body(alloc, Kind::Turn, body) {
        Ok(Frame::Turn) => Some(true),
        Err(BodyFault::Bad) => Some(false),
        _ => None,
    }
}

#[test]
fn bodies_are_read_whole(rt: HostRuntime) {
    assert!(rt; is_turn(rt.alloc(), &[]) == Some(true));
    assert!(rt; is_turn(rt.alloc(), &[0]) == Some(false));
    assert!(rt; number_in(&[1, 2, 0, 0]) == 513);
}
