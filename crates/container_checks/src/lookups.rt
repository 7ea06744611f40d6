//! Where frames and objects stand.

ghost use Rattle.std.specs.List.{range_with_len};
ghost use Rattle.std.specs.Prelude.{◌≡◌, ◌≤◌, ◌&&◌, ◌==◌, IfOk, IfSome, MatchOption, None, length, map};
ghost use Rattle.message_values.specs.Found.{find, nth, IsPlace};
ghost use Rattle.container_model.specs.Record.{is_linked, is_object};
ghost use Rattle.container_model.specs.Numbered.{IsNth, IsObjectAt};

use crate::objects::Objects;
use container_model::record::{Frame, Object};
use std::alloc::{AllocError, Global};

/// Where the item of this number stands.
pub fn place<T>(items: &[T], number: u32) -> Option<usize>
    ensures { MatchOption result (nth items.now number ≡ None) (IsNth number items.now) }
{
    if number == 0 {
        return None;
    }
    let place = (number - 1) as usize;
    if place < items.len() {
        Some(place)
    } else {
        None
    }
}

/// Where the object of this number stands, in as many steps as the list can be halved.
pub fn place_object(objects: &Objects, number: u32) -> Option<usize>
    ensures found { MatchOption result (find (is_object number) objects.now.list.items ≡ None)
        (IsPlace (is_object number) objects.now.list.items) }
    ensures own { IfSome result (IsObjectAt objects.now.list.items) }
{
    objects
        .list
        .binary_search_by_key(&number, |object| object.number)
        .ok()
}

/// Where the object of this activation stands.
pub fn place_linked(objects: &[Object], inc: u32, act: u32) -> Option<usize>
    ensures { MatchOption result (find (is_linked inc act) objects.now ≡ None)
        (IsPlace (is_linked inc act) objects.now) }
{
    for (i, object) in objects.iter().enumerate() {
        if is_linked(object, inc, act) {
            return Some(i);
        }
    }
    None
}

// Whether an object has this activation.
fn is_linked(object: &Object, inc: u32, act: u32) -> bool
    ensures { result ≡ is_linked inc act object.now }
{
    match &object.link {
        Some(link) => link.inc == inc && link.act == act,
        None => false,
    }
}

/// The numbers of frames: from 1 to how many they are.
///
/// Refused for want of memory alone.
pub fn frame_numbers(alloc: Global, frames: &[Frame]) -> Result<Vec<u32>, AllocError>
    requires { length frames.now ≤ 1000000 }
    ensures { IfOk result (λ v. v.items ≡ range_with_len 1 (length frames.now)) }
{
    let mut numbers = Vec::new(alloc);
    for i in 0..frames.len() {
        numbers.push(i as u32 + 1)?;
    }
    Ok(numbers)
}

/// The numbers of objects, in their order.
///
/// Refused for want of memory alone.
pub fn object_numbers(alloc: Global, objects: &[Object]) -> Result<Vec<u32>, AllocError>
    ensures { IfOk result (λ v. v.items ≡ map (λ o. o.number) objects.now) }
{
    let mut numbers = Vec::new(alloc);
    for object in objects {
        numbers.push(object.number)?;
    }
    Ok(numbers)
}
