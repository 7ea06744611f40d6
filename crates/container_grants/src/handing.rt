//! Frames that hand off. It takes no memory.

ghost use Rattle.std.specs.Prelude.{◌≡◌, ◌≤◌, ◌<◌, ◌+◌, ◌++◌, IfSome, [], ◌∷◌, length, map, true, vec_capacity};
ghost use Rattle.std.specs.Prelude.{vec_len};
ghost use Rattle.container_model.specs.HandOffs.{hand_off, hand_off_in, handing_frame};
ghost use Rattle.container_model.specs.Record.{Record, ask, asked_all, asked_object, sends};
ghost use Rattle.container_grants.specs.Places.{AllHavePlaces, HasPlace, HavePlaces, IsRoomyFor, free, free_at};
ghost use Rattle.container_grants.specs.Places.{free_link, is_leaving, sent_by};
ghost use Rattle.message_values.specs.Found.{nth};
ghost use Rattle.message_values.specs.declared.operation.Operation.TheVariants.{HandsOff};

use crate::rooms::{FrameRooms, Room};
use container_checks::frames::Frames;
use container_links::calling::call;
use container_links::settling::hands_off;
use container_model::answer::Action;
use container_model::record::{Frame, Link, Object, Phase};
use message_values::items::Items;
use message_values::operation::Operation;
use std::alloc::Global;
use std::mem;

/// Whether a frame is saving under another name.
pub fn is_leaving(frame: &Frame) -> bool
    ensures { result ≡ is_leaving frame.now }
{
    match frame.phase {
        Phase::Saving => frame.asked.is_some(),
        _ => false,
    }
}

// Operations go over into room that was taken for one more than they are.
fn go_over(operations: Vec<Operation>, room: Vec<Operation>) -> Vec<Operation>
    requires empty { room.items ≡ [] }
    requires place { vec_len operations < vec_capacity room }
    ensures same { result.items ≡ operations.items }
    ensures place { vec_len result < vec_capacity result }
{
    let mut room = room;
    for operation in operations {
        match room.push(operation) {
            Ok(()) => {}
            Err(_) => unreachable!(),
        }
    }
    room
}

// An activation is to give its storage away once it has done what it was asked for.
fn wait_behind(alloc: Global, link: &mut Link, room: Room)
    requires { IsRoomyFor 0 room link.old }
    ensures { link.new ≡ record link.old { waiting = link.old.waiting ++ HandsOff ∷ [] } }
{
    let waiting = mem::replace(&mut link.waiting, Items::new(alloc));
    let mut behind = go_over(waiting.into_vec(), room.waiting);
    match behind.push(Operation::HandsOff) {
        Ok(()) => {}
        Err(_) => unreachable!(),
    }
    link.waiting = Items::from_vec(behind);
}

// An activation is asked to give its storage away: at once where no call is pending, else behind what waits.
fn ask_link(alloc: Global, link: &mut Link, room: Room, actions: &mut Vec<Action>)
    requires place { IsRoomyFor 0 room link.old }
    requires room { vec_len actions.old + free_at link.old.pending ≤ vec_capacity actions.old }
    ensures asked { link.new ≡ (ask link.old HandsOff).link }
    ensures sent { actions.new.items ≡ actions.old.items ++ sends (ask link.old HandsOff).sent }
    ensures few { vec_len actions.new ≤ vec_len actions.old + free_at link.old.pending }
    ensures room { vec_capacity actions.old ≤ vec_capacity actions.new }
{
    if link.pending.is_some() {
        wait_behind(alloc, link, room);
        return;
    }
    link.last += 1;
    link.pending = Some(Operation::HandsOff);
    let call = call(link, link.last, Operation::HandsOff);
    match actions.push(Action::Send(call)) {
        Ok(()) => {}
        Err(_) => unreachable!(),
    }
}

// The same of an object of the frame that isn't passive.
fn ask_object(alloc: Global, f: u32, object: &mut Object, room: Room, actions: &mut Vec<Action>)
    requires place { HasPlace 0 f object.old room }
    requires room { vec_len actions.old + free_link object.old.link ≤ vec_capacity actions.old }
    ensures asked { object.new ≡ asked_object f HandsOff object.old }
    ensures sent { actions.new.items ≡ actions.old.items ++ sends (sent_by f HandsOff object.old) }
    ensures few { vec_len actions.new ≤ vec_len actions.old + free_link object.old.link }
    ensures room { vec_capacity actions.old ≤ vec_capacity actions.new }
{
    if object.frame != f {
        return;
    }
    let Some(link) = &mut object.link else {
        return;
    };
    ask_link(alloc, link, room, actions);
}

// The same of all objects.
fn ask_slice(
    alloc: Global,
    f: u32,
    objects: &mut [Object],
    rooms: Vec<Room>,
    actions: &mut Vec<Action>,
)
    requires len { length rooms.items ≡ length objects.old }
    requires places { HavePlaces 0 f objects.old rooms.items }
    requires room { vec_len actions.old + free objects.old ≤ vec_capacity actions.old }
    ensures asked { objects.new ≡ map (asked_object f HandsOff) objects.old }
    ensures sent { actions.new.items ≡ actions.old.items ++ sends (asked_all f HandsOff objects.old) }
    ensures room { vec_capacity actions.old ≤ vec_capacity actions.new }
{
    let mut rooms = rooms;
    for (i, object) in objects.iter_mut().enumerate() {
        let room = mem::replace(&mut rooms[i], Room::new(alloc));
        ask_object(alloc, f, object, room, actions);
    }
}

// The same in a vector.
fn ask_all(
    alloc: Global,
    f: u32,
    objects: &mut Vec<Object>,
    rooms: Vec<Room>,
    actions: &mut Vec<Action>,
)
    requires places { HavePlaces 0 f objects.old.items rooms.items }
    requires room { vec_len actions.old + free objects.old.items ≤ vec_capacity actions.old }
    ensures asked { objects.new.items ≡ map (asked_object f HandsOff) objects.old.items }
    ensures sent { actions.new.items ≡ actions.old.items ++ sends (asked_all f HandsOff objects.old.items) }
    ensures room { vec_capacity actions.old ≤ vec_capacity actions.new }
{
    ask_slice(alloc, f, objects, rooms, actions);
}

// A frame hands off.
fn hand_frame(frame: &mut Frame)
    ensures { frame.new ≡ handing_frame frame.old }
{
    frame.phase = Phase::HandingOff;
}

/// The frame of this number hands off, where it is saving under another name and each content is there: its objects
/// that aren't passive are asked to give their storages away, at once where no call is pending, else behind what waits.
/// What is to be sent is added to the actions.
pub fn hand_off_in(
    alloc: Global,
    f: u32,
    frames: &mut Frames,
    objects: &mut Vec<Object>,
    rooms: Vec<Room>,
    actions: &mut Vec<Action>,
)
    requires places { IfSome (nth frames.old f) (λ frame. is_leaving frame ≡ true
        → HavePlaces 0 f objects.old.items rooms.items) }
    requires room { vec_len actions.old + free objects.old.items ≤ vec_capacity actions.old }
    ensures handed { (r : Record) → r.frames ≡ frames.old → r.objects ≡ objects.old.items
        → (hand_off_in r f).rec ≡ record r { frames = frames.new; objects = objects.new.items } }
    ensures sent { (r : Record) → r.frames ≡ frames.old → r.objects ≡ objects.old.items
        → actions.new.items ≡ actions.old.items ++ sends (hand_off_in r f).sent }
    ensures len { length frames.new ≡ length frames.old }
    ensures few { vec_len actions.new + free objects.new.items ≤ vec_len actions.old + free objects.old.items }
    ensures room { vec_capacity actions.old ≤ vec_capacity actions.new }
{
    let Some(at) = frames.place(f) else {
        return;
    };
    if !hands_off(f, &frames[at], objects.as_slice()) {
        return;
    }
    hand_frame(&mut frames[at]);
    ask_all(alloc, f, objects, rooms, actions);
}

/// The same of all frames, by rising number.
pub fn hand_off_all(
    alloc: Global,
    frames: &mut Frames,
    objects: &mut Vec<Object>,
    rooms: Vec<FrameRooms>,
    actions: &mut Vec<Action>,
)
    requires few { length frames.old ≤ 1000000 }
    requires places { AllHavePlaces 0 1 frames.old objects.old.items rooms.items }
    requires room { vec_len actions.old + free objects.old.items ≤ vec_capacity actions.old }
    ensures handed { (r : Record) → r.frames ≡ frames.old → r.objects ≡ objects.old.items
        → (hand_off r).rec ≡ record r { frames = frames.new; objects = objects.new.items } }
    ensures sent { (r : Record) → r.frames ≡ frames.old → r.objects ≡ objects.old.items
        → actions.new.items ≡ actions.old.items ++ sends (hand_off r).sent }
    ensures len { length frames.new ≡ length frames.old }
    ensures few { vec_len actions.new + free objects.new.items ≤ vec_len actions.old + free objects.old.items }
    ensures room { vec_capacity actions.old ≤ vec_capacity actions.new }
{
    let mut f: u32 = 0;
    for place in rooms {
        f += 1;
        hand_off_in(alloc, f, frames, objects, place.rooms, actions);
    }
}
