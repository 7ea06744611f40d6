//! Room for one more operation behind those that wait in an activation, which is taken before anything changes.

ghost use Rattle.std.specs.Prelude.{◌≡◌, ◌≤◌, All, IfOk, OnErr, length, true};
ghost use Rattle.container_links.specs.Asking.{HasNumber};
ghost use Rattle.container_grants.specs.Places.{AllHavePlaces, HasPlace, HavePlaces};

use crate::handing::is_leaving;
use container_model::record::{Frame, Object};
use message_values::operation::Operation;
use std::alloc::{AllocError, Global};

/// Room for what waits in an activation.
#[derive(Drop)]
pub struct Room {
    /// Nothing yet.
    pub waiting: Vec<Operation>,
}

impl Room {
    ghost use Rattle.std.specs.Prelude.{◌≡◌, []};

    /// Room for nothing. It takes no memory.
    pub fn new(alloc: Global) -> Room
        ensures { result.waiting.items ≡ [] }
    {
        Room {
            waiting: Vec::new(alloc),
        }
    }
}

// Room for one more operation in an object of a frame, once it was asked for so many more.
fn room_of(alloc: Global, f: u32, more: usize, object: &Object) -> Result<Room, AllocError>
    requires numbers { HasNumber object.now }
    requires few { more ≤ 1000000 }
    ensures { IfOk result (λ room. HasPlace more f object.now room) }
{
    if object.frame != f {
        return Ok(Room::new(alloc));
    }
    let Some(link) = &object.link else {
        return Ok(Room::new(alloc));
    };
    Ok(Room {
        waiting: Vec::with_capacity(alloc, link.waiting.len() + more + 1)?,
    })
}

// The same in all objects.
fn rooms_of(alloc: Global, f: u32, more: usize, objects: &[Object]) -> Result<Vec<Room>, AllocError>
    requires numbers { All HasNumber objects.now }
    requires few { more ≤ 1000000 }
    ensures { IfOk result (λ v. HavePlaces more f objects.now v.items) }
{
    let mut rooms = Vec::new(alloc);
    for object in objects {
        rooms.push(room_of(alloc, f, more, object)?)?;
    }
    Ok(rooms)
}

/// Takes room for one more operation in each object of a frame, where the frame may hand off; the objects may be asked
/// for so many others before.
///
/// Refused for want of memory alone, and only where the frame may hand off.
pub fn prepare_rooms(
    alloc: Global,
    may_hand_off: bool,
    f: u32,
    more: usize,
    objects: &[Object],
) -> Result<Vec<Room>, AllocError>
    requires numbers { All HasNumber objects.now }
    requires few { more ≤ 1000000 }
    ensures places { IfOk result (λ v. may_hand_off ≡ true → HavePlaces more f objects.now v.items) }
    ensures refused { OnErr result (may_hand_off ≡ true) }
{
    if !may_hand_off {
        return Ok(Vec::new(alloc));
    }
    rooms_of(alloc, f, more, objects)
}

/// Room in the objects of a frame.
#[derive(Drop)]
pub struct FrameRooms {
    /// One for each object of the container, whichever frame it has.
    pub rooms: Vec<Room>,
}

/// The same for all frames, by rising number.
///
/// Refused for want of memory alone.
pub fn prepare_frames(
    alloc: Global,
    more: usize,
    frames: &[Frame],
    objects: &[Object],
) -> Result<Vec<FrameRooms>, AllocError>
    requires numbers { All HasNumber objects.now }
    requires few { more ≤ 1000000 }
    requires frames { length frames.now ≤ 1000000 }
    ensures { IfOk result (λ v. AllHavePlaces more 1 frames.now objects.now v.items) }
{
    let mut all = Vec::new(alloc);
    for (i, frame) in frames.iter().enumerate() {
        let rooms = prepare_rooms(alloc, is_leaving(frame), i as u32 + 1, more, objects)?;
        all.push(FrameRooms { rooms })?;
    }
    Ok(all)
}
