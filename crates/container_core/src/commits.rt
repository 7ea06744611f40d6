//! Commits that are done, commits that fail, and how one in doubt is resolved.

ghost use Rattle.std.specs.Prelude.{◌≡◌, ◌≢◌, ◌≤◌, ◌+◌, IfErr, IfOk, OnErr, OnOk, Ok, Some, [], length, true, false};
ghost use Rattle.std.specs.Prelude.{if◌then◌else◌};
ghost use Rattle.container_model.specs.Record.{Refuses, is_doubtful};
ghost use Rattle.message_values.specs.Found.{nth};
ghost use Rattle.container_model.specs.Numbered.{IsNth};
ghost use Rattle.container_model.specs.Room.{IsSound};
ghost use Rattle.container_model.specs.Saves.{commit_done, commit_failed, commit_made, counted_of, is_committing};
ghost use Rattle.container_model.specs.Saves.{resolve, save_dropped};
ghost use Rattle.container_model.specs.declared.fault.ContainerFault.TheVariants.{NoMemory};
ghost use Rattle.container_model.specs.declared.record.Frame as declared;

use crate::images::check_image;
use container_checks::checks::{is_committing, is_doubtful};
use container_links::asking::prepare;
use container_model::answer::Answer;
use container_model::fault::ContainerFault;
use container_objects::commits::{
    commit_frame, complete_objects, completion, doubt_frame, drop_frame, drop_objects, dropping,
    session_after,
};
use container_state::state::State;
use message_values::items::Items;
use std::alloc::Global;

/// Where the frame stands whose commit may be done.
///
/// Refused: as `commit_done`, but for `NoMemory`.
fn place_committing(state: &State, f: u32) -> Result<usize, ContainerFault>
    ensures place { IfOk result (IsNth f state.now.frames) }
    ensures told { OnOk result ((frame : declared.Frame) → nth state.now.frames f ≡ Some frame
        → (is_committing frame.phase ≡ true) × (commit_done state.now f ≡ Ok (commit_made state.now f frame))) }
    ensures refused { IfErr result (Refuses (commit_done state.now f)) }
    ensures memory { IfErr result (λ fault. fault ≢ NoMemory) }
{
    let Some(place) = state.frames.place(f) else {
        return Err(ContainerFault::NoSuch);
    };
    if !is_committing(state.frames[place].phase) {
        return Err(ContainerFault::WrongState);
    }
    check_image(state, f)?;
    Ok(place)
}

/// Where the frame stands whose commit, in doubt, may be resolved as kept.
///
/// Refused: as `resolve`, but for `NoMemory`.
fn place_kept(state: &State, f: u32) -> Result<usize, ContainerFault>
    ensures place { IfOk result (IsNth f state.now.frames) }
    ensures told { OnOk result ((frame : declared.Frame) → nth state.now.frames f ≡ Some frame
        → (is_doubtful frame.phase ≡ true) × (resolve state.now f true ≡ Ok (commit_made state.now f frame))) }
    ensures refused { IfErr result (Refuses (resolve state.now f true)) }
    ensures memory { IfErr result (λ fault. fault ≢ NoMemory) }
{
    let Some(place) = state.frames.place(f) else {
        return Err(ContainerFault::NoSuch);
    };
    if !is_doubtful(state.frames[place].phase) {
        return Err(ContainerFault::WrongState);
    }
    check_image(state, f)?;
    Ok(place)
}

/// Where the frame stands whose commit, in doubt, may be resolved as lost.
///
/// Refused: as `resolve`, but for `NoMemory`.
fn place_lost(state: &State, f: u32) -> Result<usize, ContainerFault>
    ensures place { IfOk result (IsNth f state.now.frames) }
    ensures told { OnOk result ((frame : declared.Frame) → nth state.now.frames f ≡ Some frame
        → (is_doubtful frame.phase ≡ true) × (resolve state.now f false ≡ Ok (save_dropped state.now f frame))) }
    ensures refused { IfErr result (Refuses (resolve state.now f false)) }
    ensures memory { IfErr result (λ fault. fault ≢ NoMemory) }
{
    let Some(place) = state.frames.place(f) else {
        return Err(ContainerFault::NoSuch);
    };
    if !is_doubtful(state.frames[place].phase) {
        return Err(ContainerFault::WrongState);
    }
    Ok(place)
}

/// The document of the frame that stands here is counted, and its objects are told so. The session that its save raised
/// it to is the container's from now on.
///
/// Refused for want of memory alone.
fn count_commit(
    alloc: Global,
    state: &mut State,
    f: u32,
    place: usize,
) -> Result<Answer, ContainerFault>
    requires sound { IsSound state.old }
    requires place { IsNth f state.old.frames place }
    ensures made { IfOk result (λ a. (frame : declared.Frame) → nth state.old.frames f ≡ Some frame
        → commit_made state.old f frame ≡ record {
          rec = state.new;
          answer = a;
          counted = counted_of state.old f;
        }) }
    ensures few { IfOk result (λ a. length a.actions ≤ length state.old.objects + length state.old.frames + 1) }
    ensures lacking { IfErr result (λ fault. fault ≡ NoMemory) }
    ensures kept { OnErr result (state.new ≡ state.old) }
{
    let frame = &state.frames[place];
    let operation = completion(frame);
    let session = session_after(state.session, frame.raised);
    let Ok(asking) = prepare(alloc, f, &operation, state.objects.list.as_slice()) else {
        return Err(ContainerFault::NoMemory);
    };
    state.session = session;
    commit_frame(&mut state.frames[place]);
    complete_objects(f, &mut state.objects.list, asking.takes);
    Ok(Answer::acts(alloc, Items::from_vec(asking.actions)))
}

/// The save of the frame that stands here is dropped, and its objects are told so.
///
/// Refused for want of memory alone.
fn drop_save(
    alloc: Global,
    state: &mut State,
    f: u32,
    place: usize,
) -> Result<Answer, ContainerFault>
    requires sound { IsSound state.old }
    requires place { IsNth f state.old.frames place }
    ensures made { IfOk result (λ a. (frame : declared.Frame) → nth state.old.frames f ≡ Some frame
        → save_dropped state.old f frame ≡ record { rec = state.new; answer = a; counted = [] }) }
    ensures few { IfOk result (λ a. length a.actions ≤ length state.old.objects + length state.old.frames + 1) }
    ensures lacking { IfErr result (λ fault. fault ≡ NoMemory) }
    ensures kept { OnErr result (state.new ≡ state.old) }
{
    let operation = dropping(&state.frames[place]);
    let Ok(asking) = prepare(alloc, f, &operation, state.objects.list.as_slice()) else {
        return Err(ContainerFault::NoMemory);
    };
    drop_frame(&mut state.frames[place]);
    drop_objects(f, &mut state.objects.list, asking.takes);
    Ok(Answer::acts(alloc, Items::from_vec(asking.actions)))
}

/// The file of a frame was committed.
pub(crate) fn commit_done(
    alloc: Global,
    state: &mut State,
    f: u32,
) -> Result<Answer, ContainerFault>
    requires { IsSound state.old }
    ensures taken { IfOk result (λ a. commit_done state.old f
        ≡ Ok (record { rec = state.new; answer = a; counted = counted_of state.old f })) }
    ensures few { IfOk result (λ a. length a.actions ≤ length state.old.objects + length state.old.frames + 1) }
    ensures refused { IfErr result (Refuses (commit_done state.old f)) }
    ensures kept { OnErr result (state.new ≡ state.old) }
{
    let place = place_committing(state, f)?;
    count_commit(alloc, state, f, place)
}

/// It isn't known whether the file of a frame was committed.
pub(crate) fn commit_failed(
    alloc: Global,
    state: &mut State,
    f: u32,
) -> Result<Answer, ContainerFault>
    ensures taken { IfOk result (λ a. commit_failed state.old f
        ≡ Ok (record { rec = state.new; answer = a; counted = [] })) }
    ensures few { IfOk result (λ a. length a.actions ≤ length state.old.objects + length state.old.frames + 1) }
    ensures refused { IfErr result (Refuses (commit_failed state.old f)) }
    ensures memory { IfErr result (λ fault. fault ≢ NoMemory) }
    ensures kept { OnErr result (state.new ≡ state.old) }
{
    let Some(place) = state.frames.place(f) else {
        return Err(ContainerFault::NoSuch);
    };
    if !is_committing(state.frames[place].phase) {
        return Err(ContainerFault::WrongState);
    }
    doubt_frame(&mut state.frames[place]);
    Ok(Answer::quiet(alloc))
}

/// A commit in doubt was kept.
fn resolve_kept(alloc: Global, state: &mut State, f: u32) -> Result<Answer, ContainerFault>
    requires { IsSound state.old }
    ensures taken { IfOk result (λ a. resolve state.old f true
        ≡ Ok (record { rec = state.new; answer = a; counted = counted_of state.old f })) }
    ensures few { IfOk result (λ a. length a.actions ≤ length state.old.objects + length state.old.frames + 1) }
    ensures refused { IfErr result (Refuses (resolve state.old f true)) }
    ensures kept { OnErr result (state.new ≡ state.old) }
{
    let place = place_kept(state, f)?;
    count_commit(alloc, state, f, place)
}

/// A commit in doubt was lost.
fn resolve_lost(alloc: Global, state: &mut State, f: u32) -> Result<Answer, ContainerFault>
    requires { IsSound state.old }
    ensures taken { IfOk result (λ a. resolve state.old f false
        ≡ Ok (record { rec = state.new; answer = a; counted = [] })) }
    ensures few { IfOk result (λ a. length a.actions ≤ length state.old.objects + length state.old.frames + 1) }
    ensures refused { IfErr result (Refuses (resolve state.old f false)) }
    ensures kept { OnErr result (state.new ≡ state.old) }
{
    let place = place_lost(state, f)?;
    drop_save(alloc, state, f, place)
}

/// A commit in doubt is resolved.
pub(crate) fn resolve(
    alloc: Global,
    state: &mut State,
    f: u32,
    is_kept: bool,
) -> Result<Answer, ContainerFault>
    requires { IsSound state.old }
    ensures taken { IfOk result (λ a. resolve state.old f is_kept
        ≡ Ok (record { rec = state.new; answer = a; counted = if is_kept then counted_of state.old f else [] })) }
    ensures few { IfOk result (λ a. length a.actions ≤ length state.old.objects + length state.old.frames + 1) }
    ensures refused { IfErr result (Refuses (resolve state.old f is_kept)) }
    ensures kept { OnErr result (state.new ≡ state.old) }
{
    if is_kept {
        resolve_kept(alloc, state, f)
    } else {
        resolve_lost(alloc, state, f)
    }
}
