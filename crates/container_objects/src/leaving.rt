//! Steps that an object takes without its frame, and what they make of the frame where they give it up.

ghost use Rattle.std.specs.Prelude.{◌≡◌, ◌≤◌, IfOk, OnErr, OnOk, Some, is_some, length, true};
ghost use Rattle.container_objects.specs.Stepping.{given_up, left_frame};
ghost use Rattle.container_links.specs.Asking.{HasNumber};
ghost use Rattle.container_model.specs.Grants.{grant_of};
ghost use Rattle.container_model.specs.Record.{Record, acts, counts_none, sends, with_frame, with_object};
ghost use Rattle.container_model.specs.Verbs.{gives_up, leaving_made, stepped_link};
ghost use Rattle.container_model.specs.declared.record.Link.{Link};
ghost use Rattle.message_values.specs.Found.{nth};

use container_links::closing::ask_steps;
use container_model::answer::Action;
use container_model::record::{Frame, Link, Object};
use message_values::items::Items;
use object_state::{GrantState, Step};
use std::alloc::{AllocError, Global};

// Whether steps give the frame's menus and border up.
fn gives_up(steps: &[Step]) -> bool
    ensures { result ≡ gives_up steps.now }
{
    for step in steps {
        if let Step::UiDeactivate = step {
            return true;
        }
    }
    false
}

// The grant of whoever has the frame or is to get it, 0 where nobody is.
fn grant_of(state: GrantState) -> u32
    ensures { result ≡ grant_of state }
{
    match state.who() {
        Some(claim) => claim.g,
        None => 0,
    }
}

// The object gives its frame up, and nobody waits for it.
fn give_up(frame: &mut Frame, number: u32, act: u32)
    ensures { frame.new ≡ given_up number act frame.old }
{
    let g = grant_of(frame.ui.state());
    let _ = frame.ui.ask(number, act, g);
}

/// An object is asked, by its activation, for steps that don't take its frame, one after the other: at once where no
/// call is pending, else behind the operations that wait. Where they give the frame up, nobody waits for it. What is to
/// be done.
///
/// Refused for want of memory alone. Then nothing changes.
pub fn leave(
    alloc: Global,
    frame: &mut Frame,
    number: u32,
    link: &mut Link,
    steps: &[Step],
) -> Result<Items<Action>, AllocError>
    requires { link.old.last ≤ 1000000 }
    ensures asked { OnOk result (link.new ≡ (stepped_link 0 link.old steps.now).link) }
    ensures sent { IfOk result (λ a. a ≡ sends (stepped_link 0 link.old steps.now).sent) }
    ensures few { IfOk result (λ a. length a ≤ 1) }
    ensures left { OnOk result (frame.new ≡ left_frame number link.old.act steps.now frame.old) }
    ensures kept { OnErr result (link.new ≡ link.old) }
    ensures frame_kept { OnErr result (frame.new ≡ frame.old) }
{
    let act = link.act;
    let actions = ask_steps(alloc, link, 0, steps)?;
    if gives_up(steps) {
        give_up(frame, number, act);
    }
    Ok(actions)
}

/// An object that isn't passive is asked for steps that don't take its frame, as `leave` has it. What is to be done.
///
/// Refused for want of memory alone. Then nothing changes.
pub fn leave_object(
    alloc: Global,
    frame: &mut Frame,
    object: &mut Object,
    steps: &[Step],
) -> Result<Items<Action>, AllocError>
    requires number { HasNumber object.old }
    requires linked { is_some object.old.link ≡ true }
    ensures taken { IfOk result (λ actions. (r : Record) (l : Link) → nth r.frames object.old.frame ≡ Some frame.old
        → object.old.link ≡ Some l → leaving_made r frame.old object.old l steps.now
        ≡ counts_none (with_object (with_frame r object.old.frame frame.new) object.new) (acts actions)) }
    ensures few { IfOk result (λ a. length a ≤ 1) }
    ensures same { object.new.number ≡ object.old.number }
    ensures kept { OnErr result (object.new ≡ object.old) }
    ensures frame_kept { OnErr result (frame.new ≡ frame.old) }
{
    let number = object.number;
    let Some(link) = &mut object.link else {
        unreachable!()
    };
    let actions = leave(alloc, frame, number, link, steps)?;
    Ok(actions)
}
