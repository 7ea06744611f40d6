//! The first fields of a body, up to its first blob.

ghost use Rattle.message_drafts.specs.Opens.{Counts, Opens, OpensLoad, OpensSaid, Takes, room_of};
ghost use Rattle.message_drafts.specs.Drafts.{IsPlanned, last, resume};
ghost use Rattle.message_model.specs.Reading.{byte, bytes, call_in, more, number, reply_in, write_in};
ghost use Rattle.std.specs.Prelude.{[], ◌≡◌, ◌≤◌, ◌+◌, ℕ, List, IfSome, None, length};

use crate::blob::Blob;
use crate::draft::{Draft, Opening, Phase, Plan};
use message_bodies::body::number_in;
use message_model::codes::{AnswerCode, Kind, OperationCode, answer_code_of, operation_code_of};
use message_model::frame::MOST_EDIT;
use std::alloc::Global;
use tree_streams::limits::{MOST_BYTES, MOST_STREAMS};
use tree_values::class_id::ClassId;

// A number that isn't 0.
fn take_number(xs: &[u8]) -> Option<(u32, &[u8])>
    requires { 4 ≤ length xs.now }
    ensures given { Takes (λ x. x.0) (λ x. x.1.now) result number xs.now }
    ensures rest { IfSome result (λ x. length x.1.now + 4 ≡ length xs.now) }
{
    let (front, rest) = xs.split_at(4);
    let n = number_in(front);
    if n == 0 {
        return None;
    }
    Some((n, rest))
}

// A byte.
fn take_byte(xs: &[u8]) -> Option<(u8, &[u8])>
    requires { 1 ≤ length xs.now }
    ensures given { Takes (λ x. x.0) (λ x. x.1.now) result byte xs.now }
    ensures rest { IfSome result (λ x. length x.1.now + 1 ≡ length xs.now) }
{
    match xs {
        [] => None,
        [first, rest @ ..] => Some((*first, rest)),
    }
}

// A class id.
fn take_class(xs: &[u8]) -> Option<(ClassId, &[u8])>
    requires { 16 ≤ length xs.now }
    ensures given { Takes (λ x. x.0) (λ x. x.1.now) result (bytes 16) xs.now }
    ensures rest { IfSome result (λ x. length x.1.now + 16 ≡ length xs.now) }
{
    let (front, rest) = xs.split_at(16);
    let mut class = [0; 16];
    class.copy_from_slice(front);
    Some((ClassId::from_bytes(class), rest))
}

// How many streams a content has.
fn take_count(xs: &[u8]) -> Option<(usize, &[u8])>
    requires { 1 ≤ length xs.now }
    ensures given { Counts (λ x. x.0) (λ x. x.1.now) result xs.now }
    ensures rest { IfSome result (λ x. length x.1.now + 1 ≡ length xs.now) }
{
    match xs {
        [] => None,
        [first, rest @ ..] => {
            let count = *first as usize;
            if count > MOST_STREAMS {
                return None;
            }
            Some((count, rest))
        }
    }
}

// The class and the count of a load.
#[tactic(auto, unfolding(message_model::specs::Reading::operation))]
fn open_load(session: u32, inc: u32, act: u32, n: u32, xs: &[u8]) -> Option<(Opening, usize, &[u8])>
    requires { 17 ≤ length xs.now }
    ensures opens { OpensLoad (λ x. x.0) (λ x. x.1) (λ x. x.2.now) result session inc act n xs.now }
    ensures within { IfSome result (λ x. length x.2.now ≤ length xs.now) }
{
    let (class, rest) = match take_class(xs) {
        Some(read) => read,
        None => return None,
    };
    let (count, rest) = match take_count(rest) {
        Some(read) => read,
        None => return None,
    };
    Some((Opening::Load(session, inc, act, n, class), count, rest))
}

// The first fields of a call, behind its session.
#[tactic(auto, unfolding(message_model::specs::Reading::operation, message_model::specs::Reading::more))]
fn open_call(session: u32, xs: &[u8]) -> Option<(Opening, usize, &[u8])>
    requires { 72 ≤ length xs.now }
    ensures opens { OpensSaid (λ x. x.0) (λ x. x.1) (λ x. x.2.now) result (call_in session) xs.now }
    ensures within { IfSome result (λ x. length x.2.now ≤ length xs.now) }
{
    let (inc, rest) = match take_number(xs) {
        Some(read) => read,
        None => return None,
    };
    let (act, rest) = match take_number(rest) {
        Some(read) => read,
        None => return None,
    };
    let (n, rest) = match take_number(rest) {
        Some(read) => read,
        None => return None,
    };
    let (number, rest) = match take_byte(rest) {
        Some(read) => read,
        None => return None,
    };
    let code = match operation_code_of(number) {
        Some(read) => read,
        None => return None,
    };
    match code {
        OperationCode::Edit => Some((Opening::Edit(session, inc, act, n), 0, rest)),
        OperationCode::Load => open_load(session, inc, act, n, rest),
        _ => None,
    }
}

// The first fields of a reply, behind its session.
#[tactic(auto, unfolding(message_model::specs::Reading::answer))]
fn open_reply(session: u32, xs: &[u8]) -> Option<(Opening, usize, &[u8])>
    requires { 72 ≤ length xs.now }
    ensures opens { OpensSaid (λ x. x.0) (λ x. x.1) (λ x. x.2.now) result (reply_in session) xs.now }
    ensures within { IfSome result (λ x. length x.2.now ≤ length xs.now) }
{
    let (inc, rest) = match take_number(xs) {
        Some(read) => read,
        None => return None,
    };
    let (act, rest) = match take_number(rest) {
        Some(read) => read,
        None => return None,
    };
    let (n, rest) = match take_number(rest) {
        Some(read) => read,
        None => return None,
    };
    let (number, rest) = match take_byte(rest) {
        Some(read) => read,
        None => return None,
    };
    let code = match answer_code_of(number) {
        Some(read) => read,
        None => return None,
    };
    match code {
        AnswerCode::Content => {
            let (count, rest) = match take_count(rest) {
                Some(read) => read,
                None => return None,
            };
            Some((Opening::Content(session, inc, act, n), count, rest))
        }
        _ => None,
    }
}

// The first fields of a write, behind its session.
fn open_write(session: u32, xs: &[u8]) -> Option<(Opening, usize, &[u8])>
    requires { 72 ≤ length xs.now }
    ensures opens { OpensSaid (λ x. x.0) (λ x. x.1) (λ x. x.2.now) result (write_in session) xs.now }
    ensures within { IfSome result (λ x. length x.2.now ≤ length xs.now) }
{
    let (inc, rest) = match take_number(xs) {
        Some(read) => read,
        None => return None,
    };
    let (act, rest) = match take_number(rest) {
        Some(read) => read,
        None => return None,
    };
    let (s, rest) = match take_number(rest) {
        Some(read) => read,
        None => return None,
    };
    let (w, rest) = match take_number(rest) {
        Some(read) => read,
        None => return None,
    };
    let (count, rest) = match take_count(rest) {
        Some(read) => read,
        None => return None,
    };
    Some((Opening::Write(session, inc, act, s, w), count, rest))
}

/// What the first fields of a body say: how many streams come, and the bytes behind these fields. Nothing where a body
/// of more than 76 bytes that begins so makes no frame.
pub(crate) fn opened(kind: Kind, xs: &[u8]) -> Option<(Opening, usize, &[u8])>
    requires { 76 ≤ length xs.now }
    ensures opens { Opens (λ x. x.0) (λ x. x.1) (λ x. x.2.now) result kind xs.now }
    ensures within { IfSome result (λ x. length x.2.now ≤ length xs.now) }
{
    let (session, rest) = match take_number(xs) {
        Some(read) => read,
        None => return None,
    };
    match kind {
        Kind::Call => open_call(session, rest),
        Kind::Reply => open_reply(session, rest),
        Kind::Write => open_write(session, rest),
        Kind::Ask => None,
        Kind::Turn => None,
    }
}

// How many bytes may stand in the blobs.
fn room_of(opening: &Opening) -> usize
    ensures { result ≡ room_of opening.now }
{
    match opening {
        Opening::Edit(_, _, _, _) => MOST_EDIT,
        _ => MOST_BYTES,
    }
}

// Nothing of what comes behind the first fields.
fn plan(phase: Phase, left: usize, room: usize, to_come: usize) -> Plan
    ensures { result ≡ record {
      phase = phase;
      left = left;
      room = room;
      missing = 0;
      to_come = to_come;
      held = result.held;
      len = 0;
    } }
{
    Plan {
        phase,
        left,
        room,
        missing: 0,
        to_come,
        held: [0; 36],
        len: 0,
    }
}

impl Draft {
    /// A body of which the first fields came.
    #[tactic(auto, unfolding(crate::specs::Drafts::resume))]
    pub(crate) fn begun(alloc: Global, opening: Opening, left: usize, to_come: usize) -> Draft
        ensures planned { IsPlanned result }
        ensures to_come { result.plan.to_come ≡ to_come }
        ensures reads { (ys : List ℕ) → resume result ys ≡ more left [] (room_of opening) (last opening) ys }
    {
        let room = room_of(&opening);
        Draft {
            opening,
            plan: plan(Phase::Fields, left, room, to_come),
            streams: Vec::new(alloc),
            picture: Blob::new(alloc),
        }
    }

    /// A body that makes no frame.
    #[tactic(auto, unfolding(crate::specs::Drafts::resume))]
    pub(crate) fn bad(alloc: Global, to_come: usize) -> Draft
        ensures planned { IsPlanned result }
        ensures to_come { result.plan.to_come ≡ to_come }
        ensures reads { (ys : List ℕ) → resume result ys ≡ None }
    {
        Draft {
            opening: Opening::Content(0, 0, 0, 0),
            plan: plan(Phase::Bad, 0, 0, to_come),
            streams: Vec::new(alloc),
            picture: Blob::new(alloc),
        }
    }
}
