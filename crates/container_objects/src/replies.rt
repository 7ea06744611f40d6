//! What a reply makes of an object, and what is answered.

ghost use Rattle.std.specs.Prelude.{◌≡◌, ◌+◌, ◌≤◌, IfErr, IfOk, OnErr, Ok, is_some, vec_len, vec_capacity};
ghost use Rattle.container_model.specs.Record.{Refuses, quiet_answer};
ghost use Rattle.container_model.specs.Messages.{reply_link};
ghost use Rattle.container_model.specs.Room.{IfLinked, IsRoomy};
ghost use Rattle.container_model.specs.Saves.{kept_in};
ghost use Rattle.container_objects.specs.Told.{told_of};

use container_links::replies::{Replied, told};
use container_model::answer::{Action, Answer};
use container_model::fault::ContainerFault;
use container_model::grants::Tells;
use container_model::record::Object;
use message_values::answer as reply;
use message_values::items::Items;
use message_values::refusal::Refusal;
use std::alloc::Global;
use tree_streams::stored::Stored;

/// What a reply gives, beside what it makes of the object.
#[derive(Drop)]
pub struct Told {
    /// Whether a content was taken as work content.
    pub taken: bool,
    /// Why the object refused the call.
    pub refused: Option<Refusal>,
    /// What is told of the frame's grant.
    pub grant: Option<Tells>,
    /// The call that is sent next, if any.
    pub actions: Vec<Action>,
}

// A content that was taken, if any, is the object's work content. Whether there is one.
fn keep(object: &mut Object, taken: Option<Stored>) -> bool
    ensures work { object.new ≡ record object.old { work = kept_in object.old.work taken } }
    ensures taken { result ≡ is_some taken }
{
    match taken {
        Some(content) => {
            object.work = content;
            true
        }
        None => false,
    }
}

/// The answer to a call of an object; a content that it closes with is its work content. Then the first operation that
/// waits is called. The actions have room for so many more.
///
/// Refused: `Stale` unless the call is pending; `BadAnswer` where the answer's content is past what may be stored, or
/// the answer doesn't fit the call or the object's states; then `NoMemory`. A refusal changes nothing.
pub fn told_object(
    alloc: Global,
    object: &mut Object,
    n: u32,
    answer: reply::Answer,
    more: usize,
) -> Result<Told, ContainerFault>
    requires numbers { IfLinked (IsRoomy 1000000 0) object.old.link }
    requires few { more ≤ 2000001 }
    ensures taken { IfOk result (λ t. told_of object.old (reply_link n answer object.old.link)
        ≡ Ok (record {
          object = object.new;
          taken = t.taken;
          refused = t.refused;
          grant = t.grant;
          actions = t.actions.items;
        })) }
    ensures few { IfOk result (λ t. vec_len t.actions ≤ 1) }
    ensures room { IfOk result (λ t. vec_len t.actions + more ≤ vec_capacity t.actions) }
    ensures refused { IfErr result (Refuses (reply_link n answer object.old.link)) }
    ensures same { object.new.number ≡ object.old.number }
    ensures kept { OnErr result (object.new ≡ object.old) }
{
    match told(alloc, &mut object.link, n, answer, more) {
        Ok(
            Replied {
                taken,
                refused,
                grant,
                actions,
            },
        ) => {
            let is_taken = keep(object, taken);
            Ok(Told {
                taken: is_taken,
                refused,
                grant,
                actions,
            })
        }
        Err(fault) => Err(fault),
    }
}

/// An answer of what is to be done, whether a content was taken, why an object refused a call, and whether one got its
/// frame without border space.
pub fn answered(
    alloc: Global,
    taken: bool,
    refused: Option<Refusal>,
    no_tools: bool,
    actions: Vec<Action>,
) -> Answer
    ensures { result ≡ record quiet_answer {
      taken = taken;
      refused = refused;
      no_tools = no_tools;
      actions = actions.items;
    } }
{
    Answer {
        frame: None,
        objects: Items::new(alloc),
        server: None,
        taken,
        refused,
        no_tools,
        actions: Items::from_vec(actions),
    }
}
