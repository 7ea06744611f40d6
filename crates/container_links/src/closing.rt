//! Activations that are asked for several operations, one after the other: all memory is taken first, then they change.

ghost use Rattle.std.specs.Prelude.{◌≡◌, ◌+◌, ◌<◌, ◌≤◌, ◌++◌, ◌∷◌, [], IfOk, OnErr, OnOk, length, map, option_to_list};
ghost use Rattle.std.specs.Prelude.{vec_capacity, vec_len};
ghost use Rattle.container_links.specs.Asking.{stepped_by};
ghost use Rattle.container_model.specs.Record.{ask_each, sends};
ghost use Rattle.container_model.specs.Verbs.{operation_of};

use crate::asking::copied;
use crate::calling::call;
use crate::requests::add_action;
use container_model::answer::Action;
use container_model::record::Link;
use message_values::items::Items;
use message_values::operation::Operation;
use object_state::Step;
use std::alloc::{AllocError, Global};

// The operation of a step, under a grant where it takes one.
fn operation_of(g: u32, step: Step) -> Operation
    ensures { result ≡ operation_of g step }
{
    match step {
        Step::InPlace => Operation::InPlace,
        Step::UiActivate => Operation::UiActivate(g),
        Step::UiDeactivate => Operation::UiDeactivate,
        Step::InPlaceDeactivate => Operation::InPlaceDeactivate,
        Step::OpenWindow => Operation::OpenWindow,
        Step::Close(option) => Operation::Close(option),
    }
}

// Puts the operations of steps to the end.
fn push_steps(operations: &mut Vec<Operation>, g: u32, steps: &[Step]) -> Result<(), AllocError>
    ensures { OnOk result (operations.new.items ≡ operations.old.items ++ map (operation_of g) steps.now) }
{
    for step in steps {
        operations.push(operation_of(g, *step))?;
    }
    Ok(())
}

// What waits, and the operations of steps behind it.
fn behind(
    alloc: Global,
    waiting: &Items<Operation>,
    g: u32,
    steps: &[Step],
) -> Result<Items<Operation>, AllocError>
    ensures { IfOk result (λ q. q ≡ waiting.now ++ map (operation_of g) steps.now) }
{
    let mut out = copied(alloc, waiting.as_slice())?;
    push_steps(&mut out, g, steps)?;
    Ok(Items::from_vec(out))
}

/// What an activation takes up where it is asked for operations, and what is sent then.
#[derive(Drop)]
pub struct Stepped {
    /// What is pending from now on, where nothing was.
    pub first: Option<Operation>,
    /// All that wait from now on.
    pub waiting: Items<Operation>,
    /// What is to be sent, if anything: the call of what is pending from now on.
    pub action: Option<Action>,
}

/// Takes the memory to ask an activation for the operations of these steps, one after the other: the first at once
/// where none is pending, the others behind those that wait. A step that takes the frame's menus takes them under this
/// grant.
///
/// Refused for want of memory alone.
pub fn prepare_steps(
    alloc: Global,
    link: &Link,
    g: u32,
    steps: &[Step],
) -> Result<Stepped, AllocError>
    requires { link.now.last ≤ 1000000 }
    ensures asked { IfOk result (λ s. stepped_by s.first s.waiting link.now
        ≡ (ask_each link.now (map (operation_of g) steps.now)).link) }
    ensures sent { IfOk result (λ s. option_to_list s.action
        ≡ sends (ask_each link.now (map (operation_of g) steps.now)).sent) }
{
    if link.pending.is_some() {
        return Ok(Stepped {
            first: None,
            waiting: behind(alloc, &link.waiting, g, steps)?,
            action: None,
        });
    }
    let Some((first, rest)) = steps.split_first() else {
        return Ok(Stepped {
            first: None,
            waiting: behind(alloc, &link.waiting, g, steps)?,
            action: None,
        });
    };
    let waiting = behind(alloc, &link.waiting, g, rest)?;
    Ok(Stepped {
        first: Some(operation_of(g, *first)),
        waiting,
        action: Some(Action::Send(call(link, link.last + 1, operation_of(g, *first)))),
    })
}

/// An activation takes up what was prepared for it. It takes no memory. What is to be sent, if anything.
pub fn take_up_steps(link: &mut Link, stepped: Stepped) -> Option<Action>
    requires { link.old.last ≤ 1000000 }
    ensures asked { link.new ≡ stepped_by stepped.first stepped.waiting link.old }
    ensures action { result ≡ stepped.action }
{
    let Stepped {
        first,
        waiting,
        action,
    } = stepped;
    link.waiting = waiting;
    if let Some(operation) = first {
        link.last += 1;
        link.pending = Some(operation);
    }
    action
}

/// Asks an activation for the operations of these steps, one after the other: the first at once where none is pending,
/// the others behind those that wait. A step that takes the frame's menus takes them under this grant. What is to be
/// sent.
///
/// Refused for want of memory alone. Then nothing changes.
pub fn ask_steps(
    alloc: Global,
    link: &mut Link,
    g: u32,
    steps: &[Step],
) -> Result<Items<Action>, AllocError>
    requires { link.old.last ≤ 1000000 }
    ensures asked { OnOk result (link.new ≡ (ask_each link.old (map (operation_of g) steps.now)).link) }
    ensures sent { IfOk result (λ a. a ≡ sends (ask_each link.old (map (operation_of g) steps.now)).sent) }
    ensures few { IfOk result (λ a. length a ≤ 1) }
    ensures kept { OnErr result (link.new ≡ link.old) }
{
    let mut actions = Vec::with_capacity(alloc, 1)?;
    let stepped = prepare_steps(alloc, link, g, steps)?;
    let action = take_up_steps(link, stepped);
    add_action(&mut actions, action);
    Ok(Items::from_vec(actions))
}
