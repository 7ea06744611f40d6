//! Calls that are sent once more.

ghost use Rattle.std.specs.Prelude.{◌≡◌, IfOk, option_to_list};
ghost use Rattle.container_model.specs.Replies.{pending_call, pending_calls};

use crate::calling::call;
use container_model::record::{Link, Object};
use message_values::message::Message;
use std::alloc::{AllocError, Global};

// The pending call of an activation, as it was first sent.
fn pending_call(alloc: Global, link: &Option<Link>) -> Result<Option<Message>, AllocError>
    ensures { IfOk result (λ m. option_to_list m ≡ pending_call link.now) }
{
    let Some(link) = link else {
        return Ok(None);
    };
    match &link.pending {
        None => Ok(None),
        Some(operation) => Ok(Some(call(link, link.last, operation.copy(alloc)?))),
    }
}

/// The pending calls of objects in their order, each as it was first sent.
///
/// Refused for want of memory alone.
pub fn pending_calls(alloc: Global, objects: &[Object]) -> Result<Vec<Message>, AllocError>
    ensures { IfOk result (λ v. v.items ≡ pending_calls objects.now) }
{
    let mut calls = Vec::new(alloc);
    for object in objects {
        if let Some(call) = pending_call(alloc, &object.link)? {
            calls.push(call)?;
        }
    }
    Ok(calls)
}
