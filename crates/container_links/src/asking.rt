//! Operations that are asked of objects.

ghost use Rattle.std.specs.Prelude.{◌++◌, ◌+◌, ◌<◌, ◌≡◌, ◌≤◌, All, IfOk, OnErr, OnOk, [], ◌∷◌, length, map};
ghost use Rattle.std.specs.Prelude.{option_to_list, vec_capacity, vec_len, ℕ};
ghost use Rattle.container_links.specs.Asking.{HasNumber, IsAsking, installed, prepared};
ghost use Rattle.container_model.specs.Record.{ask, asked_all, asked_link, asked_object, asked_sent, call, sends};
ghost use Rattle.container_model.specs.Room.{IfLinked};
ghost use Rattle.container_model.specs.declared.answer.Action.TheVariants.{Send};
ghost use Rattle.message_values.specs.declared.operation.Operation.{Operation};

use crate::calling::call;
use container_model::answer::Action;
use container_model::record::{Link, Object};
use message_values::items::Items;
use message_values::message::Message;
use message_values::operation::Operation;
use std::alloc::{AllocError, Global};
use std::mem;

// Asks an activation for an operation: at once where none is pending, else behind those that wait. The message that is
// sent, if any.
fn ask(alloc: Global, link: &mut Link, operation: Operation) -> Result<Option<Message>, AllocError>
    requires { link.old.last ≤ 1000000 }
    ensures asked { OnOk result (link.new ≡ (ask link.old operation).link) }
    ensures sent { IfOk result (λ m. option_to_list m ≡ (ask link.old operation).sent) }
    ensures kept { OnErr result (link.new ≡ link.old) }
{
    match link.pending {
        Some(_) => {
            link.waiting.push(operation)?;
            Ok(None)
        }
        None => {
            let call = next_call(alloc, link, &operation)?;
            link.last += 1;
            link.pending = Some(operation);
            Ok(Some(call))
        }
    }
}

// The same of an object, where it isn't passive. What is to be sent.
fn ask_link(
    alloc: Global,
    link: &mut Option<Link>,
    operation: Operation,
) -> Result<Items<Action>, AllocError>
    requires { IfLinked (λ l. l.last + length l.waiting ≤ 1000000) link.old }
    ensures asked { OnOk result (link.new ≡ asked_link operation link.old) }
    ensures sent { IfOk result (λ a. a ≡ sends (asked_sent operation link.old)) }
    ensures few { IfOk result (λ a. length a ≤ 1) }
    ensures kept { OnErr result (link.new ≡ link.old) }
{
    let mut actions = Vec::with_capacity(alloc, 1)?;
    match link {
        None => {}
        Some(link) => match ask(alloc, link, operation)? {
            None => {}
            Some(message) => add(&mut actions, message),
        },
    }
    Ok(Items::from_vec(actions))
}

/// An object is asked for an operation: at once where none is pending, else behind those that wait; a passive one isn't
/// asked. What is to be sent.
///
/// Refused for want of memory alone. Then nothing changes.
pub fn ask_object(
    alloc: Global,
    object: &mut Object,
    operation: Operation,
) -> Result<Items<Action>, AllocError>
    requires { HasNumber object.old }
    ensures asked { OnOk result (object.new ≡ record object.old { link = asked_link operation object.old.link }) }
    ensures sent { IfOk result (λ a. a ≡ sends (asked_sent operation object.old.link)) }
    ensures few { IfOk result (λ a. length a ≤ 1) }
    ensures kept { OnErr result (object.new ≡ object.old) }
{
    ask_link(alloc, &mut object.link, operation)
}

// Adds a message that room was taken for.
pub(crate) fn add(actions: &mut Vec<Action>, message: Message)
    requires { vec_len actions.old < vec_capacity actions.old }
    ensures { actions.new.items ≡ actions.old.items ++ Send message ∷ [] }
{
    match actions.push(Action::Send(message)) {
        Ok(()) => {}
        Err(_) => unreachable!(),
    }
}

// The next call of an activation.
pub(crate) fn next_call(
    alloc: Global,
    link: &Link,
    operation: &Operation,
) -> Result<Message, AllocError>
    requires { link.now.last ≤ 1000000 }
    ensures { IfOk result (λ m. m ≡ call link.now (link.now.last + 1) operation.now) }
{
    Ok(call(link, link.last + 1, operation.copy(alloc)?))
}

/// What an object takes up where it is asked.
#[derive(Drop)]
pub enum Prepared {
    /// It isn't asked.
    Nothing,
    /// It is asked at once, by the call of this number.
    Now(u32, Operation),
    /// It is asked later: all that wait from now on.
    Behind(Items<Operation>),
}

/// All that is needed to ask the objects of a frame.
#[derive(Drop)]
pub struct Asking {
    /// What is to be sent.
    pub actions: Vec<Action>,
    /// What each object takes up.
    pub takes: Vec<Prepared>,
}

/// Takes the memory to ask each object of a frame that isn't passive for an operation.
///
/// Refused for want of memory alone.
pub fn prepare(
    alloc: Global,
    frame: u32,
    operation: &Operation,
    objects: &[Object],
) -> Result<Asking, AllocError>
    requires { All HasNumber objects.now }
    ensures { IfOk result (λ a. IsAsking frame operation.now objects.now a.actions.items a.takes.items) }
{
    let actions = calls(alloc, frame, operation, objects)?;
    let takes = takes(alloc, frame, operation, objects)?;
    Ok(Asking { actions, takes })
}

// What is to be sent to the objects of a frame.
fn calls(
    alloc: Global,
    frame: u32,
    operation: &Operation,
    objects: &[Object],
) -> Result<Vec<Action>, AllocError>
    requires { All HasNumber objects.now }
    ensures sent { IfOk result (λ v. v.items ≡ sends (asked_all frame operation.now objects.now)) }
    ensures few { IfOk result (λ v. vec_len v ≤ length objects.now) }
{
    let mut out = Vec::new(alloc);
    for object in objects {
        if object.frame == frame {
            if let Some(link) = &object.link {
                if link.pending.is_none() {
                    out.push(Action::Send(next_call(alloc, link, operation)?))?;
                }
            }
        }
    }
    Ok(out)
}

// What the objects of a frame take up.
pub(crate) fn takes(
    alloc: Global,
    frame: u32,
    operation: &Operation,
    objects: &[Object],
) -> Result<Vec<Prepared>, AllocError>
    requires { All HasNumber objects.now }
    ensures { IfOk result (λ v. v.items ≡ map (prepared frame operation.now) objects.now) }
{
    let mut out = Vec::new(alloc);
    for object in objects {
        out.push(take(alloc, frame, operation, object)?)?;
    }
    Ok(out)
}

// What an object takes up where a frame is asked.
fn take(
    alloc: Global,
    frame: u32,
    operation: &Operation,
    object: &Object,
) -> Result<Prepared, AllocError>
    requires { HasNumber object.now }
    ensures { IfOk result (λ p. p ≡ prepared frame operation.now object.now) }
{
    if object.frame != frame {
        return Ok(Prepared::Nothing);
    }
    match &object.link {
        None => Ok(Prepared::Nothing),
        Some(link) => match &link.pending {
            None => Ok(Prepared::Now(link.last + 1, operation.copy(alloc)?)),
            Some(_) => Ok(Prepared::Behind(behind(alloc, &link.waiting, operation)?)),
        },
    }
}

// What waits, and an operation behind it.
pub(crate) fn behind(
    alloc: Global,
    waiting: &Items<Operation>,
    operation: &Operation,
) -> Result<Items<Operation>, AllocError>
    ensures { IfOk result (λ q. q ≡ waiting.now ++ operation.now ∷ []) }
{
    let mut out = copied(alloc, waiting.as_slice())?;
    out.push(operation.copy(alloc)?)?;
    Ok(Items::from_vec(out))
}

// Equal operations.
pub(crate) fn copied(alloc: Global, operations: &[Operation]) -> Result<Vec<Operation>, AllocError>
    ensures { IfOk result (λ v. v.items ≡ operations.now) }
{
    let mut out = Vec::new(alloc);
    for operation in operations {
        out.push(operation.copy(alloc)?)?;
    }
    Ok(out)
}

/// The objects take up what was prepared for them. It takes no memory.
pub fn take_up(objects: &mut Vec<Object>, takes: Vec<Prepared>)
    requires { vec_len takes ≡ length objects.old.items }
    ensures { (f : ℕ) (op : Operation) → takes.items ≡ map (prepared f op) objects.old.items
        → objects.new.items ≡ map (asked_object f op) objects.old.items }
{
    install_all(objects, takes);
}

// The same in a slice.
fn install_all(objects: &mut [Object], takes: Vec<Prepared>)
    requires { vec_len takes ≡ length objects.old }
    ensures { (f : ℕ) (op : Operation) → takes.items ≡ map (prepared f op) objects.old
        → objects.new ≡ map (asked_object f op) objects.old }
{
    let mut takes = takes;
    for (i, object) in objects.iter_mut().enumerate() {
        let take = mem::replace(&mut takes[i], Prepared::Nothing);
        install(object, take);
    }
}

/// An object takes up what was prepared for it. It takes no memory.
pub fn install(object: &mut Object, take: Prepared)
    ensures { object.new ≡ installed take object.old }
{
    if let Some(link) = &mut object.link {
        match take {
            Prepared::Nothing => {}
            Prepared::Now(last, operation) => {
                link.last = last;
                link.pending = Some(operation);
            }
            Prepared::Behind(waiting) => link.waiting = waiting,
        }
    }
}
