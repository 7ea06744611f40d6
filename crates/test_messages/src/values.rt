//! Messages as values.

use crate::contents::{bytes_of, name};
use crate::texts::{number, word};
use message_values::answer::Answer;
use message_values::items::Items;
use message_values::message::{Message, Said};
use message_values::operation::Operation;
use message_values::refusal::Refusal;
use object_state::{CloseOption, Menus, Op, StateFault};
use std::alloc::Global;
use std::process::Abort;
use tree_streams::stored::Stored;
use tree_streams::streams::{NamedStream, Streams};
use tree_values::bytes::Bytes;
use tree_values::class_id::ClassId;

const CODES: &str = "BadEdit 1
BadContent 2
TooBig 3
AlreadyInitialized 11
NotInitialized 12
Scribble 13
HandsOff 14
NeedsStorage 15
WrongState 16";

fn refusal(name: &str) -> Refusal {
    match name {
        "BadEdit" => Refusal::BadEdit,
        "BadContent" => Refusal::BadContent,
        "TooBig" => Refusal::TooBig,
        "AlreadyInitialized" => Refusal::AlreadyInitialized,
        "NotInitialized" => Refusal::NotInitialized,
        "Scribble" => Refusal::Scribble,
        "HandsOff" => Refusal::HandsOff,
        "NeedsStorage" => Refusal::NeedsStorage,
        _ => Refusal::WrongState,
    }
}

fn has_code(row: &str) -> bool {
    let mut words = row.split_whitespace();
    let refusal = refusal(word(&mut words));
    usize::from(refusal.code()) == number(word(&mut words))
}

#[test]
fn refusals_stand_by_their_codes(rt: HostRuntime) {
    for row in CODES.split('\n') {
        assert!(rt; has_code(row), "{row}");
    }
    assert!(rt;
        matches!(
            Refusal::of_state(StateFault::NeedsStorage),
            Refusal::NeedsStorage
        )
    );
}

fn two(rt: &impl Abort, alloc: Global) -> Items<u32> {
    let mut items = Items::new(alloc);
    items.push(4).expect(rt, "memory");
    items.push(7).expect(rt, "memory");
    items
}

fn with_nine(rt: &impl Abort, items: Items<u32>) -> Items<u32> {
    let mut vec = items.into_vec();
    vec.push(9).expect(rt, "memory");
    Items::from_vec(vec)
}

fn are_two(items: &Items<u32>) -> bool {
    items.len() == 2 && items.as_slice() == [4, 7].as_slice()
}

fn are_three(items: &Items<u32>) -> bool {
    items.as_slice() == [4, 7, 9].as_slice()
}

fn loses_its_first(mut items: Items<u32>) -> bool {
    items.take_first() == Some(4) && items.as_slice() == [7, 9].as_slice()
}

#[test]
fn items_are_kept_in_turn(rt: HostRuntime) {
    assert!(rt; Items::<u32>::new(rt.alloc()).is_empty());
    let items = two(&rt, rt.alloc());
    assert!(rt; are_two(&items));
    let items = with_nine(&rt, items);
    assert!(rt; are_three(&items));
    assert!(rt; loses_its_first(items));
}

fn row_of_load(alloc: Global) -> Op {
    let class = ClassId::from_bytes([1; 16]);
    Operation::Load(class, Stored::new(alloc)).op()
}

fn row_of_completed() -> Op {
    Operation::SaveCompleted {
        save: 6,
        storage: false,
    }
    .op()
}

fn is_completed(op: Op) -> bool {
    match op {
        Op::SaveCompleted { save, storage } => save == 6 && !storage,
        _ => false,
    }
}

#[test]
fn operations_have_their_rows(rt: HostRuntime) {
    assert!(rt; matches!(row_of_load(rt.alloc()), Op::Load));
    assert!(rt; is_completed(row_of_completed()));
    let close = Operation::Close(CloseOption::NoSave);
    assert!(rt; matches!(close.op(), Op::Close(CloseOption::NoSave)));
}

/// Whether an operation is an edit of these bytes.
fn is_edit(operation: &Operation, bytes: &[u8]) -> bool {
    match operation {
        Operation::Edit(edit) => edit.as_slice() == bytes,
        _ => false,
    }
}

#[test]
fn an_operation_is_copied(rt: HostRuntime) {
    let edit = Operation::Edit(bytes_of(&rt, rt.alloc(), "i 0 a"));
    let copy = edit.copy(rt.alloc()).expect(&rt, "memory");
    assert!(rt; is_edit(&copy, b"i 0 a"));
}

/// Whether an answer is of tools with this border.
fn has_border(answer: &Answer, want: [u16; 4]) -> bool {
    match answer {
        Answer::Tools { border, .. } => *border == want,
        _ => false,
    }
}

#[test]
fn an_answer_is_copied(rt: HostRuntime) {
    let menus = Menus::new(b"Edit", b"Note", b"Help").expect(&rt, "three texts");
    let answer = Answer::Tools {
        menus,
        border: [0, 1, 2, 3],
    };
    let copy = answer.copy(rt.alloc()).expect(&rt, "memory");
    assert!(rt; has_border(&copy, [0, 1, 2, 3]));
}

/// Whether a message is a Write with these numbers.
fn is_write(message: &Message, numbers: [u32; 5]) -> bool {
    match &message.said {
        Said::Write { inc, act, s, w, .. } => [message.session, *inc, *act, *s, *w] == numbers,
        _ => false,
    }
}

#[test]
fn a_message_is_copied(rt: HostRuntime) {
    let said = Said::Write {
        inc: 1,
        act: 2,
        s: 3,
        w: 4,
        content: Stored::new(rt.alloc()),
    };
    let message = Message { session: 5, said };
    let copy = message.copy(rt.alloc()).expect(&rt, "memory");
    assert!(rt; is_write(&copy, [5, 1, 2, 3, 4]));
}

fn push(rt: &impl Abort, alloc: Global, items: &mut Vec<NamedStream>, text: &str) {
    let name = name(rt, text);
    let bytes = Bytes::new(alloc);
    items.push(NamedStream { name, bytes }).expect(rt, "memory");
}

/// How many streams a vector of two names makes, if it makes any.
fn streams_of(rt: &impl Abort, alloc: Global, first: &str, last: &str) -> Option<usize> {
    let mut items = Vec::new(alloc);
    push(rt, alloc, &mut items, first);
    push(rt, alloc, &mut items, last);
    match Streams::from_vec(items) {
        Some(streams) => Some(streams.len()),
        None => None,
    }
}

#[test]
fn a_vector_in_name_order_makes_streams(rt: HostRuntime) {
    assert!(rt; streams_of(&rt, rt.alloc(), "a", "b") == Some(2));
    assert!(rt; streams_of(&rt, rt.alloc(), "b", "a").is_none());
    assert!(rt; streams_of(&rt, rt.alloc(), "a", "A").is_none());
}
