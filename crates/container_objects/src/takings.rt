//! Objects that take their frame: the object that has it is asked first to give it up.

ghost use Rattle.std.specs.Prelude.{◌≡◌, ◌≢◌, ◌≤◌, ◌<◌, ◌++◌, All, IfOk, IfSome, OnErr, OnOk, Some, is_some, length};
ghost use Rattle.std.specs.Prelude.{option_to_list, slice_get, slice_set, true};
ghost use Rattle.container_links.specs.Asking.{HasNumber, stepped_by};
ghost use Rattle.container_model.specs.Grants.{moved};
ghost use Rattle.container_model.specs.Record.{asked_sent, is_object, sends};
ghost use Rattle.container_model.specs.Verbs.{claim_of, stepped_link};
ghost use Rattle.container_model.specs.Numbered.{IsObjectAt};
ghost use Rattle.container_model.specs.declared.record.Link.{Link};
ghost use Rattle.container_model.specs.declared.record.Object.{Object};
ghost use Rattle.container_objects.specs.Stepping.{both_told, told_objects, told_sent};
ghost use Rattle.object_state.specs.Grants.{Ask};
ghost use Rattle.message_values.specs.Found.{put};
ghost use Rattle.message_values.specs.declared.operation.Operation.TheVariants.{UiDeactivate};

use container_checks::lookups::place_object;
use container_checks::objects::Objects;
use container_links::closing::{Stepped, ask_steps, prepare_steps, take_up_steps};
use container_links::requests::{Request, add_action, prepare_one, take_up_one};
use container_model::answer::Action;
use container_model::record::{Frame, Object};
use message_values::items::Items;
use message_values::operation::Operation;
use object_state::{Claim, Step};
use std::alloc::{AllocError, Global};

/// The claim of an object that isn't passive, under a grant.
pub fn claim_of(object: &Object, g: u32) -> Claim
    requires { is_some object.now.link ≡ true }
    ensures { IfSome object.now.link (λ l. result ≡ claim_of object.now l g) }
{
    let Some(link) = &object.link else {
        unreachable!()
    };
    Claim {
        object: object.number,
        act: link.act,
        g,
    }
}

/// A frame is claimed.
pub fn claim_frame(frame: &mut Frame, claim: Claim)
    ensures { frame.new ≡ moved frame.old (Ask claim) }
{
    let _ = frame.ui.ask(claim.object, claim.act, claim.g);
}

// An object that isn't passive is asked for steps. What is to be done.
fn ask_object(
    alloc: Global,
    object: &mut Object,
    g: u32,
    steps: &[Step],
) -> Result<Items<Action>, AllocError>
    requires number { HasNumber object.old }
    requires linked { is_some object.old.link ≡ true }
    ensures asked { OnOk result
        (IfSome object.old.link
        (λ l. object.new ≡ record object.old { link = Some (stepped_link g l steps.now).link })) }
    ensures sent { IfOk result (λ a. IfSome object.old.link (λ l. a ≡ sends (stepped_link g l steps.now).sent)) }
    ensures few { IfOk result (λ a. length a ≤ 1) }
    ensures kept { OnErr result (object.new ≡ object.old) }
{
    let Some(link) = &mut object.link else {
        unreachable!()
    };
    ask_steps(alloc, link, g, steps)
}

// The memory to ask an object that isn't passive for steps.
fn prepare_object(
    alloc: Global,
    object: &Object,
    g: u32,
    steps: &[Step],
) -> Result<Stepped, AllocError>
    requires number { HasNumber object.now }
    requires linked { is_some object.now.link ≡ true }
    ensures asked { IfOk result
        (λ s. IfSome object.now.link (λ l. stepped_by s.first s.waiting l ≡ (stepped_link g l steps.now).link)) }
    ensures sent { IfOk result
        (λ s. IfSome object.now.link (λ l. option_to_list s.action ≡ sends (stepped_link g l steps.now).sent)) }
{
    let Some(link) = &object.link else {
        unreachable!()
    };
    prepare_steps(alloc, link, g, steps)
}

// An object that isn't passive takes up what was prepared for it. What is to be sent, if anything.
fn take_up_object(object: &mut Object, stepped: Stepped) -> Option<Action>
    requires number { HasNumber object.old }
    requires linked { is_some object.old.link ≡ true }
    ensures asked { IfSome object.old.link
        (λ l. object.new ≡ record object.old { link = Some (stepped_by stepped.first stepped.waiting l) }) }
    ensures action { result ≡ stepped.action }
{
    let Some(link) = &mut object.link else {
        unreachable!()
    };
    take_up_steps(link, stepped)
}

// The same of the object that stands there.
fn ask_at(
    alloc: Global,
    objects: &mut Vec<Object>,
    i: usize,
    g: u32,
    steps: &[Step],
) -> Result<Items<Action>, AllocError>
    requires numbers { All HasNumber objects.old.items }
    requires fits { i < length objects.old.items }
    requires linked { IfSome (slice_get objects.old.items i) (λ o. is_some o.link ≡ true) }
    ensures asked { OnOk result ((o : Object) (l : Link) → slice_get objects.old.items i ≡ Some o → o.link ≡ Some l
        → objects.new.items ≡ slice_set objects.old.items i
        (record o { link = Some (stepped_link g l steps.now).link })) }
    ensures sent { IfOk result (λ a. (o : Object) (l : Link) → slice_get objects.old.items i ≡ Some o
        → o.link ≡ Some l → a ≡ sends (stepped_link g l steps.now).sent) }
    ensures few { IfOk result (λ a. length a ≤ 1) }
    ensures kept { OnErr result (objects.new.items ≡ objects.old.items) }
{
    ask_object(alloc, &mut objects[i], g, steps)
}

// The object that stands at i is asked for steps, once the one at j is told to give the frame up. What is to be done.
fn ask_both(
    alloc: Global,
    objects: &mut Vec<Object>,
    i: usize,
    j: usize,
    g: u32,
    steps: &[Step],
) -> Result<Items<Action>, AllocError>
    requires numbers { All HasNumber objects.old.items }
    requires fits { i < length objects.old.items }
    requires other_fits { j < length objects.old.items }
    requires apart { i ≢ j }
    requires linked { IfSome (slice_get objects.old.items i) (λ o. is_some o.link ≡ true) }
    ensures asked { OnOk result ((o h : Object) (l : Link) → slice_get objects.old.items i ≡ Some o
        → slice_get objects.old.items j ≡ Some h → o.link ≡ Some l → objects.new.items
        ≡ both_told objects.old.items i (record o { link = Some (stepped_link g l steps.now).link }) j h) }
    ensures sent { IfOk result (λ a. (o h : Object) (l : Link) → slice_get objects.old.items i ≡ Some o
        → slice_get objects.old.items j ≡ Some h → o.link ≡ Some l → a ≡ sends (asked_sent UiDeactivate h.link)
        ++ sends (stepped_link g l steps.now).sent) }
    ensures few { IfOk result (λ a. length a ≤ 2) }
    ensures kept { OnErr result (objects.new.items ≡ objects.old.items) }
{
    let mut actions = Vec::with_capacity(alloc, 2)?;
    let Request { takes, action } = prepare_one(alloc, &Operation::UiDeactivate, &objects[j].link)?;
    let stepped = prepare_object(alloc, &objects[i], g, steps)?;
    add_action(&mut actions, action);
    let own = take_up_object(&mut objects[i], stepped);
    take_up_one(&mut objects[j], takes);
    add_action(&mut actions, own);
    Ok(Items::from_vec(actions))
}

/// The object that stands there, and isn't passive, is asked under this grant for the steps by which it takes its
/// frame; the object that has the frame, if any, is told first to give it up. What is to be done.
///
/// Refused for want of memory alone. Then nothing changes.
pub fn ask_taking(
    alloc: Global,
    objects: &mut Objects,
    i: usize,
    holder: Option<u32>,
    g: u32,
    steps: &[Step],
) -> Result<Items<Action>, AllocError>
    requires numbers { All HasNumber objects.old.list.items }
    requires place { IsObjectAt objects.old.list.items i }
    requires linked { IfSome (slice_get objects.old.list.items i) (λ o. is_some o.link ≡ true) }
    requires apart { IfSome (slice_get objects.old.list.items i) (λ o. IfSome holder (λ n. n ≢ o.number)) }
    ensures asked { OnOk result ((o : Object) (l : Link) → slice_get objects.old.list.items i ≡ Some o
        → o.link ≡ Some l → objects.new.list.items ≡ put (is_object o.number)
        (record o { link = Some (stepped_link g l steps.now).link }) (told_objects holder objects.old.list.items)) }
    ensures sent { IfOk result (λ a. (o : Object) (l : Link) → slice_get objects.old.list.items i ≡ Some o
        → o.link ≡ Some l → a ≡ sends (told_sent holder objects.old.list.items
        ++ (stepped_link g l steps.now).sent)) }
    ensures few { IfOk result (λ a. length a ≤ 2) }
    ensures kept { OnErr result (objects.new.list.items ≡ objects.old.list.items) }
{
    let Some(holder) = holder else {
        return ask_at(alloc, &mut objects.list, i, g, steps);
    };
    let Some(j) = place_object(objects, holder) else {
        return ask_at(alloc, &mut objects.list, i, g, steps);
    };
    ask_both(alloc, &mut objects.list, i, j, g, steps)
}
