//! What a verb asks of an object, and what it is refused for.

ghost use Rattle.std.specs.Prelude.{◌+◌, ◌≡◌, ◌≤◌, All, IfErr, IfOk, IfSome, OnOk, IsSomeAnd, Some, length, option_map};
ghost use Rattle.container_checks.specs.Went.{verb_went};
ghost use Rattle.container_model.specs.Record.{Record, Refuses};
ghost use Rattle.container_model.specs.Room.{IfLinked};
ghost use Rattle.container_model.specs.Verbs.{before_taking, holder_has_numbers, holder_of, steps_now, steps_of, takes};
ghost use Rattle.container_model.specs.Verbs.{verb_framed, verb_linked, wants_ui};
ghost use Rattle.container_model.specs.declared.record.Frame.{Frame};
ghost use Rattle.container_model.specs.declared.record.Object.{Object};
ghost use Rattle.object_state.specs.Verbs.{verb_of};

use crate::checks::{has_numbers, is_moving, link_has_numbers};
use crate::lookups::place_object;
use crate::objects::Objects;
use container_model::fault::ContainerFault;
use container_model::record::{Frame, Object};
use object_state::{GrantState, ObjectState, Step, Verb};

/// The verb of a number (OLEIVERB), none where it is no verb's.
pub fn verb_of(number: i64) -> Option<Verb>
    ensures { result ≡ verb_of number }
{
    match number {
        0 => Some(Verb::Primary),
        -1 => Some(Verb::Show),
        -2 => Some(Verb::Open),
        -3 => Some(Verb::Hide),
        -4 => Some(Verb::UiActivate),
        -5 => Some(Verb::InPlaceActivate),
        _ => None,
    }
}

/// Whether a verb leads to menus and border of the frame.
pub fn wants_ui(verb: Option<Verb>) -> bool
    ensures { result ≡ wants_ui verb }
{
    match verb {
        Some(verb) => verb.activates_ui(),
        None => false,
    }
}

// The steps of a verb in a state, none where the object doesn't take it then.
fn steps_of(verb: Option<Verb>, state: ObjectState) -> Option<&'static [Step]>
    ensures { option_map (λ steps. steps.now) result ≡ steps_of verb state }
{
    match verb {
        Some(verb) => verb.steps(state),
        None => None,
    }
}

/// Whether steps take the frame's menus and border.
pub fn takes(steps: &[Step]) -> bool
    ensures { result ≡ takes steps.now }
{
    for step in steps {
        if let Step::UiActivate = step {
            return true;
        }
    }
    false
}

// The steps before the one that takes the frame.
fn before_taking(steps: &[Step]) -> &[Step]
    ensures { result.now ≡ before_taking steps.now }
{
    for (i, step) in steps.iter().enumerate() {
        if let Step::UiActivate = step {
            return &steps[..i];
        }
    }
    steps
}

/// The steps that an object is asked for at once: all where its frame is free, else those before the one that takes it.
pub fn steps_now<'a>(state: &GrantState, steps: &'a [Step]) -> &'a [Step]
    ensures { result.now ≡ steps_now state.now steps.now }
{
    match state {
        GrantState::Free => steps,
        _ => before_taking(steps),
    }
}

/// The object that has the frame, if any.
pub fn holder_of(state: &GrantState) -> Option<u32>
    ensures { result ≡ holder_of state.now }
{
    match state {
        GrantState::Held { holder, .. } => Some(holder.object),
        _ => None,
    }
}

/// Whether the object that has the frame, if any, has numbers left for operations.
pub fn holder_has_numbers(numbers: u32, objects: &Objects, holder: Option<u32>) -> bool
    requires { All (λ o. IfLinked (λ l. l.last + length l.waiting ≤ 1000000) o.link) objects.now.list.items }
    ensures { (r : Record) → r.numbers ≡ numbers → r.objects ≡ objects.now.list.items
        → result ≡ holder_has_numbers r holder }
{
    let Some(holder) = holder else {
        return true;
    };
    match place_object(objects, holder) {
        Some(i) => link_has_numbers(numbers, &objects.list[i].link),
        None => true,
    }
}

/// Whether a verb may be done while its frame's menus and border are as they are.
///
/// Refused: `Busy` where it leads to menus and border while these pass from object to object.
pub fn may_move(frame: &Frame, verb: Option<Verb>) -> Result<(), ContainerFault>
    ensures may { OnOk result ((r : Record) (o : Object) → verb_framed r verb o frame.now
        ≡ verb_linked r frame.now o verb o.link) }
    ensures refused { IfErr result (λ e. (r : Record) (o : Object) → Refuses (verb_framed r verb o frame.now) e) }
{
    let state = frame.ui.state();
    if wants_ui(verb) && is_moving(&state) {
        return Err(ContainerFault::Busy);
    }
    Ok(())
}

/// The steps that a verb asks of an object: none where there is nothing to do.
///
/// Refused: `NotRunning` where the object is passive; `WrongState` where the verb has no steps in its state, or is
/// none; `NumbersSpent` where there is something to do.
pub fn verb_steps(
    numbers: u32,
    object: &Object,
    verb: Option<Verb>,
) -> Result<&'static [Step], ContainerFault>
    requires { IfLinked (λ l. l.last + length l.waiting ≤ 1000000) object.now.link }
    ensures taken { IfOk result (λ steps. IsSomeAnd object.now.link (λ l. (r : Record) (frame : Frame)
        → r.numbers ≡ numbers → verb_linked r frame object.now verb object.now.link
        ≡ verb_went r frame object.now l steps.now)) }
    ensures steps { IfOk result
        (λ steps. IfSome object.now.link (λ l. steps_of verb l.states.object ≡ Some steps.now)) }
    ensures refused { IfErr result (λ e. (r : Record) (frame : Frame) → r.numbers ≡ numbers
        → Refuses (verb_linked r frame object.now verb object.now.link) e) }
{
    let Some(link) = &object.link else {
        return Err(ContainerFault::NotRunning);
    };
    let Some(steps) = steps_of(verb, link.states.object) else {
        return Err(ContainerFault::WrongState);
    };
    if !steps.is_empty() && !has_numbers(numbers, link) {
        return Err(ContainerFault::NumbersSpent);
    }
    Ok(steps)
}
