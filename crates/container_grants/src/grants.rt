//! How a frame's menus and border pass from object to object: what is told of a frame, who is told of a grant, and
//! which grants the end of a server frees.

ghost use Rattle.std.specs.Prelude.{◌≡◌, ◌+◌, ◌≤◌, ◌<◌, ◌++◌, All, IfOk, OnErr, OnOk, is_some, true, length, map};
ghost use Rattle.std.specs.Prelude.{option_to_list, vec_capacity, vec_len};
ghost use Rattle.container_links.specs.Asking.{HasNumber};
ghost use Rattle.container_model.specs.Grants.{freed, freed_claims, freed_frame, is_by, is_hosted, is_hosted_object};
ghost use Rattle.container_model.specs.Grants.{lacks_space, lost_by, number_of, passed_to, unwaited};
ghost use Rattle.container_model.specs.Messages.{is_held_by};
ghost use Rattle.container_model.specs.Record.{is_object, sends};
ghost use Rattle.container_grants.specs.Granted.{actions_of, asked_by, claims_if, installed_by, installed_each, ready};
ghost use Rattle.container_grants.specs.Granted.{sent_by, told_frame, told_frames, told_space, told_space_in};
ghost use Rattle.message_values.specs.Found.{find, nth};

use container_checks::frames::Frames;
use container_checks::lookups::place_object;
use container_checks::objects::Objects;
use container_links::asking::{Prepared, ask_object, install};
use container_links::requests::{Request, add_action, prepare_one};
use container_model::answer::Action;
use container_model::grants::Tells;
use container_model::record::{Frame, Link};
use message_values::items::Items;
use message_values::operation::Operation;
use object_state::{Claim, FrameUi, GrantFault, GrantState};
use std::alloc::{AllocError, Global};

/// All that is needed to tell an object of its grant.
#[derive(Drop)]
pub struct Granted {
    /// The object.
    pub object: u32,
    /// What it takes up.
    pub takes: Prepared,
    /// What is to be sent, if anything.
    pub action: Option<Action>,
}

// Whether an object got its frame without border space.
fn lacks_space(told: Result<(), GrantFault>) -> bool
    ensures { result ≡ lacks_space told }
{
    match told {
        Err(GrantFault::NoToolSpace) => true,
        _ => false,
    }
}

// The number of a grant, 0 where there is none.
fn number_of(claim: Option<Claim>) -> u32
    ensures { result ≡ number_of claim }
{
    match claim {
        Some(claim) => claim.g,
        None => 0,
    }
}

// Whether whoever has a frame, or is to get it, has it by this activation.
fn is_by(act: u32, who: Option<Claim>) -> bool
    ensures { result ≡ is_by act who }
{
    match who {
        Some(claim) => claim.act == act,
        None => false,
    }
}

// What an answer tells of a frame's grant moves it. Whether an object got the frame without border space.
fn tell(frame: &mut Frame, told: Tells) -> bool
    ensures frame { frame.new ≡ told_frame told frame.old }
    ensures space { result ≡ told_space told frame.old }
{
    match told {
        Tells::Gets(g, tools) => lacks_space(frame.ui.granted(g, tools.menus, tools.border)),
        Tells::GivesUp(act) => {
            let who = frame.ui.state().who();
            if !is_by(act, who) {
                return false;
            }
            lacks_space(frame.ui.revoked(number_of(who)))
        }
    }
}

/// What an answer of an object tells of its frame's grant moves it. Whether the object got the frame without border
/// space. It takes no memory.
pub fn tell_frame(frames: &mut Frames, f: u32, told: Option<Tells>) -> bool
    ensures frames { frames.new ≡ told_frames f told frames.old }
    ensures len { length frames.new ≡ length frames.old }
    ensures space { result ≡ told_space_in told (nth frames.old f) }
{
    let Some(told) = told else {
        return false;
    };
    match frames.place(f) {
        Some(i) => tell(&mut frames[i], told),
        None => false,
    }
}

// What is needed to tell an object of its grant.
fn prepare_grant(alloc: Global, claim: Claim, objects: &Objects) -> Result<Granted, AllocError>
    requires { All HasNumber objects.now.list.items }
    ensures { IfOk result (λ q. q ≡ ready objects.now.list.items claim) }
{
    match place_object(objects, claim.object) {
        None => Ok(Granted {
            object: claim.object,
            takes: Prepared::Nothing,
            action: None,
        }),
        Some(i) => {
            let Request { takes, action } = prepare_one(
                alloc,
                &Operation::UiActivate(claim.g),
                &objects.list[i].link,
            )?;
            Ok(Granted {
                object: claim.object,
                takes,
                action,
            })
        }
    }
}

/// Takes the memory to tell whoever waits for a frame of its grant, where an activation gives the frame up that has it.
///
/// Refused for want of memory alone, and only where an activation gives the frame up.
pub fn prepare_waiting(
    alloc: Global,
    gives: Option<u32>,
    f: u32,
    frames: &Frames,
    objects: &Objects,
) -> Result<Vec<Granted>, AllocError>
    requires { All HasNumber objects.now.list.items }
    ensures ready { IfOk result (λ v. v.items ≡ map (ready objects.now.list.items)
        (claims_if gives (nth frames.now f))) }
    ensures few { IfOk result (λ v. vec_len v ≤ 1) }
    ensures refused { OnErr result (is_some gives ≡ true) }
{
    let mut grants = Vec::new(alloc);
    let Some(act) = gives else {
        return Ok(grants);
    };
    let Some(at) = frames.place(f) else {
        return Ok(grants);
    };
    let state = frames[at].ui.state();
    if !is_by(act, state.who()) {
        return Ok(grants);
    }
    let Some(claim) = state.waiting() else {
        return Ok(grants);
    };
    grants.push(prepare_grant(alloc, claim, objects)?)?;
    Ok(grants)
}

// An object takes up what was prepared for it.
fn take_grant(objects: &mut Objects, object: u32, takes: Prepared)
    ensures { objects.new.list.items ≡ installed_by object takes objects.old.list.items }
{
    if let Some(i) = place_object(objects, object) {
        install(&mut objects.list[i], takes);
    }
}

/// Objects take up what was prepared for them, one after the other, and what is sent then is added to actions that have
/// room for it. It takes no memory.
pub fn take_grants(objects: &mut Objects, actions: &mut Vec<Action>, grants: Vec<Granted>)
    requires { vec_len actions.old + vec_len grants ≤ vec_capacity actions.old }
    ensures objects { objects.new.list.items ≡ installed_each grants.items objects.old.list.items }
    ensures sent { actions.new.items ≡ actions.old.items ++ actions_of grants.items }
    ensures few { vec_len actions.new ≤ vec_len actions.old + vec_len grants }
    ensures room { vec_capacity actions.old ≤ vec_capacity actions.new }
{
    for grant in grants {
        let Granted {
            object,
            takes,
            action,
        } = grant;
        take_grant(objects, object, takes);
        add_action(actions, action);
    }
}

// Whether an activation is one of this server.
fn is_hosted(inc: u32, link: &Option<Link>) -> bool
    ensures { result ≡ is_hosted inc link.now }
{
    match link {
        Some(link) => link.inc == inc,
        None => false,
    }
}

// Whether the object of a number is one of this server.
fn is_hosted_object(inc: u32, number: u32, objects: &Objects) -> bool
    ensures { result ≡ is_hosted_object inc (find (is_object number) objects.now.list.items) }
{
    match place_object(objects, number) {
        Some(i) => is_hosted(inc, &objects.list[i].link),
        None => false,
    }
}

// What an object of a server that has ended has, is to get or waits for is lost.
fn lose(inc: u32, objects: &Objects, ui: &mut FrameUi, claim: Option<Claim>)
    ensures { ui.new ≡ lost_by inc objects.now.list.items ui.old claim }
{
    if let Some(claim) = claim {
        if is_hosted_object(inc, claim.object, objects) {
            ui.lost(claim.act);
        }
    }
}

// Who gets a frame that passes from one object to another.
fn passed_to(before: GrantState, later: GrantState) -> Option<Claim>
    ensures { option_to_list result ≡ passed_to before later }
{
    match before {
        GrantState::Revoking {
            waiting: Some(_),
            ..
        } => match later {
            GrantState::Granting(claim) => Some(claim),
            _ => None,
        },
        _ => None,
    }
}

// What objects of a server that has ended have of a frame is lost, first who waits. Who gets the frame then.
fn free(inc: u32, objects: &Objects, ui: &mut FrameUi) -> Option<Claim>
    ensures freed { ui.new ≡ freed inc objects.now.list.items ui.old }
    ensures passed { option_to_list result ≡ passed_to (unwaited inc objects.now.list.items ui.old).state
        (freed inc objects.now.list.items ui.old).state }
{
    let who = ui.state().who();
    let waiting = ui.state().waiting();
    lose(inc, objects, ui, waiting);
    let before = ui.state();
    lose(inc, objects, ui, who);
    passed_to(before, ui.state())
}

/// Takes the memory to tell whoever waits on for a frame that the end of a server frees, by rising frame.
///
/// Refused for want of memory alone.
pub fn prepare_freed(
    alloc: Global,
    inc: u32,
    frames: &[Frame],
    objects: &Objects,
) -> Result<Vec<Granted>, AllocError>
    requires { All HasNumber objects.now.list.items }
    ensures ready { IfOk result (λ v. v.items ≡ map (ready objects.now.list.items)
        (freed_claims inc objects.now.list.items frames.now)) }
    ensures few { IfOk result (λ v. vec_len v ≤ length frames.now) }
{
    let mut grants = Vec::new(alloc);
    for frame in frames {
        let mut ui = frame.ui;
        if let Some(claim) = free(inc, objects, &mut ui) {
            grants.push(prepare_grant(alloc, claim, objects)?)?;
        }
    }
    Ok(grants)
}

// The same, of which who gets it then is known.
fn free_frame(inc: u32, frame: &mut Frame, objects: &Objects)
    ensures { frame.new ≡ freed_frame inc objects.now.list.items frame.old }
{
    let _ = free(inc, objects, &mut frame.ui);
}

// The same of frames.
fn free_slice(inc: u32, frames: &mut [Frame], objects: &Objects)
    ensures { frames.new ≡ map (freed_frame inc objects.now.list.items) frames.old }
{
    for frame in frames.iter_mut() {
        free_frame(inc, frame, objects);
    }
}

/// What objects of a server that has ended have of their frames, are to get or wait for is lost. It takes no memory.
pub fn free_frames(inc: u32, frames: &mut Frames, objects: &Objects)
    ensures { frames.new ≡ map (freed_frame inc objects.now.list.items) frames.old }
{
    free_slice(inc, frames.as_mut_slice(), objects);
}

/// Whether an activation has a frame under this grant.
pub fn is_held_by(state: &GrantState, act: u32, g: u32) -> bool
    ensures { result ≡ is_held_by act g state.now }
{
    match state {
        GrantState::Held { holder, .. } => holder.act == act && holder.g == g,
        _ => false,
    }
}

/// The object of a number is asked for an operation, where it is there and isn't passive. What is to be done for it.
///
/// Refused for want of memory alone. Then nothing changes.
pub fn ask_number(
    alloc: Global,
    objects: &mut Objects,
    number: u32,
    operation: Operation,
) -> Result<Items<Action>, AllocError>
    requires { All HasNumber objects.old.list.items }
    ensures asked { OnOk result (objects.new.list.items ≡ asked_by number operation objects.old.list.items) }
    ensures sent { IfOk result (λ a. a ≡ sends (sent_by number operation objects.old.list.items)) }
    ensures few { IfOk result (λ a. length a ≤ 1) }
    ensures kept { OnErr result (objects.new.list.items ≡ objects.old.list.items) }
{
    match place_object(objects, number) {
        Some(i) => match ask_object(alloc, &mut objects.list[i], operation) {
            Ok(actions) => Ok(actions),
            Err(fault) => Err(fault),
        },
        None => Ok(Items::new(alloc)),
    }
}
