//! A frame that is saved under another name asks for its objects' storages: all memory is taken first, then they
//! change.

ghost use Rattle.std.specs.Prelude.{◌≡◌, ◌+◌, ◌≤◌, ◌<◌, ◌++◌, All, IfOk, IfSome, None, Some, length, map, slice_get};
ghost use Rattle.std.specs.Prelude.{slice_set, vec_capacity, vec_len};
ghost use Rattle.container_links.specs.Asking.{HasNumber, installed_link, prepared, prepared_link};
ghost use Rattle.container_links.specs.Handing.{answers, awaits_but, call_by, calls_by, next_prepared};
ghost use Rattle.container_model.specs.HandOffs.{handing_frame, hands_off_at};
ghost use Rattle.container_model.specs.Messages.{replied_fitting, reply_link};
ghost use Rattle.container_model.specs.Record.{asked_all, asked_object, sends};
ghost use Rattle.container_model.specs.Room.{IfLinked};
ghost use Rattle.message_values.specs.declared.answer.Answer.TheVariants.{Content};
ghost use Rattle.message_values.specs.declared.operation.Operation.TheVariants.{HandsOff};

use crate::asking::{Prepared, copied, take_up, takes};
use crate::calling::call;
use crate::settling::awaits;
use crate::turns::{WhenContent, when_content};
use container_model::answer::Action;
use container_model::record::{Frame, Link, Object, Phase};
use message_values::answer::Answer;
use message_values::items::Items;
use message_values::operation::Operation;
use std::alloc::{AllocError, Global};
use tree_streams::limits::is_within;
use tree_streams::stored::Stored;

/// Whether an answer to the call of this number is the content that was asked for in the present save, and is taken.
pub fn is_content(link: &Option<Link>, n: u32, answer: &Answer) -> bool
    ensures { result ≡ answers link.now (reply_link n answer.now link.now) }
{
    let Some(l) = link else {
        return false;
    };
    let Some(operation) = &l.pending else {
        return false;
    };
    if n != l.last {
        return false;
    }
    if l.saved.is_some() {
        return false;
    }
    match answer {
        Answer::Done => false,
        Answer::Refused(_) => false,
        Answer::Tools { .. } => false,
        Answer::Content(content) => is_saved(l, operation, content),
    }
}

// The same of a content, where this operation is pending and no content was answered yet.
fn is_saved(link: &Link, operation: &Operation, content: &Stored) -> bool
    ensures { link.now.saved ≡ None → result ≡ answers (Some link.now)
        (replied_fitting link.now operation.now (Content content.now)) }
{
    match when_content(operation) {
        WhenContent::Saved => is_within(content) && link.states.step(operation.op()).is_ok(),
        WhenContent::Closed => false,
        WhenContent::Unasked => false,
    }
}

/// Whether a frame hands off once the object that stands here has answered its content: no other is waited for.
pub fn hands_off_after(number: u32, place: usize, frame: &Frame, objects: &[Object]) -> bool
    requires { place < length objects.now }
    ensures { result ≡ hands_off_at frame.now.phase frame.now.asked (awaits_but number place objects.now) }
{
    match frame.phase {
        Phase::Saving => match &frame.asked {
            None => false,
            Some(_) => !awaits_but(number, place, objects),
        },
        _ => false,
    }
}

// Whether a save of the frame waits for another object than the one that stands here.
fn awaits_but(number: u32, place: usize, objects: &[Object]) -> bool
    requires { place < length objects.now }
    ensures { result ≡ awaits_but number place objects.now }
{
    awaits(number, &objects[..place]) || awaits(number, &objects[place + 1..])
}

// What an activation takes up once its pending call is answered: it is asked for its storage then.
fn take_next(alloc: Global, link: &Link) -> Result<Prepared, AllocError>
    requires { link.now.last + length link.now.waiting ≤ 1000000 }
    ensures { IfOk result (λ p. p ≡ next_prepared link.now) }
{
    let waiting = link.waiting.as_slice();
    if waiting.is_empty() {
        return Ok(Prepared::Now(link.last + 1, Operation::HandsOff));
    }
    let mut out = copied(alloc, &waiting[1..])?;
    out.push(Operation::HandsOff)?;
    Ok(Prepared::Behind(Items::from_vec(out)))
}

/// Takes the memory to ask the objects of a frame for their storages, once the object that stands here has answered its
/// pending call.
///
/// Refused for want of memory alone.
pub fn prepare_after(
    alloc: Global,
    frame: u32,
    place: usize,
    objects: &[Object],
) -> Result<Vec<Prepared>, AllocError>
    requires numbers { All HasNumber objects.now }
    requires place { place < length objects.now }
    ensures { IfOk result (λ v. IfSome (slice_get objects.now place)
        (λ o. IfSome o.link (λ l. v.items ≡ slice_set (map (prepared frame HandsOff) objects.now) place
        (next_prepared l)))) }
{
    let mut out = takes(alloc, frame, &Operation::HandsOff, objects)?;
    if let Some(link) = &objects[place].link {
        out[place] = take_next(alloc, link)?;
    }
    Ok(out)
}

// Asks for the storages of objects: what was prepared for each says by which call, if by any.
fn push_calls(actions: &mut Vec<Action>, objects: &[Object], takes: &[Prepared])
    requires room { vec_len actions.old + length objects.now ≤ vec_capacity actions.old }
    requires len { length takes.now ≡ length objects.now }
    ensures asked { actions.new.items ≡ actions.old.items ++ calls_by takes.now objects.now }
    ensures few { vec_len actions.new ≤ vec_len actions.old + length objects.now }
    ensures room { vec_capacity actions.old ≤ vec_capacity actions.new }
{
    for (i, object) in objects.iter().enumerate() {
        push_call(actions, &takes[i], &object.link);
    }
}

// The same of one object.
fn push_call(actions: &mut Vec<Action>, take: &Prepared, link: &Option<Link>)
    requires { vec_len actions.old < vec_capacity actions.old }
    ensures asked { actions.new.items ≡ actions.old.items ++ call_by take.now link.now }
    ensures few { vec_len actions.new ≤ vec_len actions.old + 1 }
    ensures room { vec_capacity actions.old ≤ vec_capacity actions.new }
{
    let Some(link) = link else {
        return;
    };
    let Prepared::Now(n, _) = take else {
        return;
    };
    let call = call(link, *n, Operation::HandsOff);
    match actions.push(Action::Send(call)) {
        Ok(()) => {}
        Err(_) => unreachable!(),
    }
}

/// A frame hands off: its objects are asked for their storages, by what was prepared for each. It takes no memory.
pub fn hand_off(
    number: u32,
    frame: &mut Frame,
    objects: &mut Vec<Object>,
    actions: &mut Vec<Action>,
    takes: Vec<Prepared>,
)
    requires room { vec_len actions.old + length objects.old.items ≤ vec_capacity actions.old }
    requires len { vec_len takes ≡ length objects.old.items }
    ensures frame { frame.new ≡ handing_frame frame.old }
    ensures objects { takes.items ≡ map (prepared number HandsOff) objects.old.items
        → objects.new.items ≡ map (asked_object number HandsOff) objects.old.items }
    ensures asked { takes.items ≡ map (prepared number HandsOff) objects.old.items
        → actions.new.items ≡ actions.old.items ++ sends (asked_all number HandsOff objects.old.items) }
    ensures few { vec_len actions.new ≤ vec_len actions.old + length objects.old.items }
    ensures room { vec_capacity actions.old ≤ vec_capacity actions.new }
{
    push_calls(actions, objects.as_slice(), takes.as_slice());
    take_up(objects, takes);
    frame.phase = Phase::HandingOff;
}
