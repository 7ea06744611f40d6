//! Objects that are asked to close.

ghost use Rattle.std.specs.Prelude.{◌≡◌, ◌≤◌, IfErr, IfOk, Ok, OnErr, Some, length};
ghost use Rattle.container_links.specs.Asking.{HasNumber};
ghost use Rattle.container_model.specs.Record.{Record, Refuses, acts, counts_none, with_frame, with_object};
ghost use Rattle.container_model.specs.Verbs.{close_linked};
ghost use Rattle.message_values.specs.Found.{nth};

use crate::leaving::leave;
use container_checks::checks::has_numbers;
use container_model::answer::Action;
use container_model::fault::ContainerFault;
use container_model::record::{Frame, Object};
use message_values::items::Items;
use object_state::CloseOption;
use std::alloc::Global;

/// An object is asked to hide and to close: at once where no call is pending, else behind the operations that wait.
/// Where it has its frame, it is to give that up. What is to be done for it.
///
/// Refused: `NotRunning` where the object is passive; `NumbersSpent`; `WrongState` where it isn't running yet; then
/// `NoMemory`. A refusal changes nothing.
pub fn close_one(
    alloc: Global,
    numbers: u32,
    frame: &mut Frame,
    object: &mut Object,
    option: CloseOption,
) -> Result<Items<Action>, ContainerFault>
    requires { HasNumber object.old }
    ensures taken { IfOk result (λ actions. (r : Record) → r.numbers ≡ numbers
        → nth r.frames object.old.frame ≡ Some frame.old → close_linked r frame.old object.old option
        object.old.link ≡ Ok (counts_none (with_object (with_frame r object.old.frame frame.new) object.new)
        (acts actions))) }
    ensures few { IfOk result (λ actions. length actions ≤ 1) }
    ensures refused { IfErr result (λ e. (r : Record) → r.numbers ≡ numbers
        → Refuses (close_linked r frame.old object.old option object.old.link) e) }
    ensures same { object.new.number ≡ object.old.number }
    ensures kept { OnErr result (object.new ≡ object.old) }
    ensures frame_kept { OnErr result (frame.new ≡ frame.old) }
{
    let number = object.number;
    let Some(link) = &mut object.link else {
        return Err(ContainerFault::NotRunning);
    };
    if !has_numbers(numbers, link) {
        return Err(ContainerFault::NumbersSpent);
    }
    let Some(steps) = option.steps(link.states.object) else {
        return Err(ContainerFault::WrongState);
    };
    match leave(alloc, frame, number, link, steps) {
        Ok(actions) => Ok(actions),
        Err(_) => Err(ContainerFault::NoMemory),
    }
}
