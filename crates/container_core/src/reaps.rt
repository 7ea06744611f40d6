//! What a container does at the end of a server.

ghost use Rattle.std.specs.Prelude.{◌+◌, ◌≡◌, ◌≤◌, All, IfErr, IfOk, Ok, OnErr, length};
ghost use Rattle.container_links.specs.Asking.{HasNumber};
ghost use Rattle.container_grants.specs.Places.{AllHavePlaces};
ghost use Rattle.container_queues.specs.Steady.{Steady};
ghost use Rattle.container_model.specs.Record.{Refuses, counts_none};
ghost use Rattle.container_model.specs.Messages.{on_reap};
ghost use Rattle.container_model.specs.Room.{IsSound};

use container_checks::objects::Objects;
use container_grants::grants::{free_frames, prepare_freed, take_grants};
use container_grants::handing::hand_off_all;
use container_grants::rooms::{FrameRooms, prepare_frames};
use container_links::settling::settle_into;
use container_model::answer::Answer;
use container_model::fault::ContainerFault;
use container_model::record::Frame;
use container_objects::reaps::reap_all;
use container_state::state::State;
use message_values::items::Items;
use std::alloc::{AllocError, Global};

// Takes the memory for frames that hand off.
fn prepare_rooms(
    alloc: Global,
    more: usize,
    frames: &[Frame],
    objects: &Objects,
) -> Result<Vec<FrameRooms>, AllocError>
    requires numbers { All HasNumber objects.now.list.items }
    requires few { more ≤ 1000000 }
    requires frames { length frames.now ≤ 1000000 }
    ensures { IfOk result (λ v. AllHavePlaces more 1 frames.now objects.now.list.items v.items) }
{
    prepare_frames(alloc, more, frames, objects.list.as_slice())
}

/// The end of a server.
pub(crate) fn on_reap(alloc: Global, state: &mut State, inc: u32) -> Result<Answer, ContainerFault>
    requires steady { Steady state.old }
    requires sound { IsSound state.old }
    ensures taken { IfOk result (λ a. on_reap state.old inc ≡ Ok (counts_none state.new a)) }
    ensures few { IfOk result (λ a. length a.actions ≤ length state.old.objects + length state.old.frames + 1) }
    ensures refused { IfErr result (Refuses (on_reap state.old inc)) }
    ensures kept { OnErr result (state.new ≡ state.old) }
{
    if !state.servers.is_alive(inc) {
        return Err(ContainerFault::NoSuch);
    }
    let Ok(grants) = prepare_freed(alloc, inc, state.frames.as_slice(), &state.objects) else {
        return Err(ContainerFault::NoMemory);
    };
    let frames = state.frames.as_slice();
    let Ok(rooms) = prepare_rooms(alloc, grants.len(), frames, &state.objects) else {
        return Err(ContainerFault::NoMemory);
    };
    let most = grants.len() + state.frames.len() + state.objects.list.len();
    let Ok(mut actions) = Vec::with_capacity(alloc, most) else {
        return Err(ContainerFault::NoMemory);
    };
    free_frames(inc, &mut state.frames, &state.objects);
    reap_all(inc, &mut state.objects.list);
    state.servers.reap(inc);
    take_grants(&mut state.objects, &mut actions, grants);
    hand_off_all(
        alloc,
        &mut state.frames,
        &mut state.objects.list,
        rooms,
        &mut actions,
    );
    settle_into(&mut actions, &mut state.frames, &state.objects.list);
    Ok(Answer::acts(alloc, Items::from_vec(actions)))
}
