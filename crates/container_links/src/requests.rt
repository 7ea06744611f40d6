//! An operation that is asked of one object: all memory is taken first, then the object changes.

ghost use Rattle.std.specs.Prelude.{◌≡◌, ◌+◌, ◌<◌, ◌≤◌, ◌++◌, IfOk, length, option_to_list, vec_capacity, vec_len};
ghost use Rattle.container_links.specs.Asking.{called, prepared_link};
ghost use Rattle.container_model.specs.Record.{asked_link, asked_sent, sends};
ghost use Rattle.container_model.specs.Room.{IfLinked};
ghost use Rattle.message_values.specs.declared.operation.Operation.{Operation};

use crate::asking::{Prepared, behind, install, next_call};
use container_model::answer::Action;
use container_model::record::{Link, Object};
use message_values::operation::Operation;
use std::alloc::{AllocError, Global};

/// All that is needed to ask one object.
#[derive(Drop)]
pub struct Request {
    /// What it takes up.
    pub takes: Prepared,
    /// What is to be sent, if anything.
    pub action: Option<Action>,
}

#[tactic(auto, using(crate::proofs::AskingAll::called_sent))]
/// Takes the memory to ask an object of this link for an operation: at once where none is pending, else behind those
/// that wait; a passive one isn't asked.
///
/// Refused for want of memory alone.
pub fn prepare_one(
    alloc: Global,
    operation: &Operation,
    link: &Option<Link>,
) -> Result<Request, AllocError>
    requires { IfLinked (λ l. l.last + length l.waiting ≤ 1000000) link.now }
    ensures takes { IfOk result (λ q. q.takes ≡ prepared_link operation.now link.now) }
    ensures action { IfOk result (λ q. q.action ≡ called operation.now link.now) }
    ensures sent { IfOk result (λ q. option_to_list q.action ≡ sends (asked_sent operation.now link.now)) }
{
    let Some(link) = link else {
        return Ok(Request {
            takes: Prepared::Nothing,
            action: None,
        });
    };
    if link.pending.is_some() {
        let waiting = behind(alloc, &link.waiting, operation)?;
        return Ok(Request {
            takes: Prepared::Behind(waiting),
            action: None,
        });
    }
    let message = next_call(alloc, link, operation)?;
    Ok(Request {
        takes: Prepared::Now(link.last + 1, operation.copy(alloc)?),
        action: Some(Action::Send(message)),
    })
}

#[tactic(auto, using(crate::proofs::AskingAll::installed_one))]
/// An object takes up what was prepared for it. It takes no memory.
pub fn take_up_one(object: &mut Object, takes: Prepared)
    ensures { (op : Operation) → takes ≡ prepared_link op object.old.link
        → object.new ≡ record object.old { link = asked_link op object.old.link } }
{
    install(object, takes);
}

/// Adds what is to be sent, if anything, to actions that have room for it. It takes no memory.
pub fn add_action(actions: &mut Vec<Action>, action: Option<Action>)
    requires { vec_len actions.old < vec_capacity actions.old }
    ensures added { actions.new.items ≡ actions.old.items ++ option_to_list action }
    ensures few { vec_len actions.new ≤ vec_len actions.old + 1 }
    ensures room { vec_capacity actions.old ≤ vec_capacity actions.new }
{
    let Some(action) = action else {
        return;
    };
    match actions.push(action) {
        Ok(()) => {}
        Err(_) => unreachable!(),
    }
}
