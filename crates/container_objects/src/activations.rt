//! New objects, and their activations.

ghost use Rattle.std.specs.Prelude.{◌≡◌, IfOk, [], ◌∷◌, Some};
ghost use Rattle.container_model.specs.Commands.{begun_link, first_operation, kind_of, new_object, user_type};
ghost use Rattle.container_model.specs.declared.answer.Action.TheVariants.{Send};
ghost use Rattle.object_core.specs.Kinds.{class_of};
ghost use Rattle.message_values.specs.declared.message.Said.TheVariants.{Call};

use container_links::calling::call;
use container_model::answer::Action;
use container_model::command::ObjectKind;
use container_model::record::{Link, Object};
use message_values::items::Items;
use message_values::operation::Operation;
use object_core::classes;
use object_state::States;
use std::alloc::{AllocError, Global};
use tree_streams::area::Area;
use tree_streams::stored::Stored;
use tree_values::bytes::Bytes;
use tree_values::class_id::ClassId;

/// A passive object of a kind, without content.
///
/// Refused for want of memory alone.
pub fn new_object(
    alloc: Global,
    number: u32,
    frame: u32,
    kind: ObjectKind,
    area: Area,
) -> Result<Object, AllocError>
    ensures { IfOk result (λ o. o ≡ new_object number frame (kind_of kind) area) }
{
    Ok(Object {
        number,
        frame,
        class: class(kind),
        user_type: user_type(alloc, kind)?,
        area,
        work: Stored::new(alloc),
        link: None,
    })
}

// The class of a kind.
fn class(kind: ObjectKind) -> ClassId
    ensures { result ≡ class_of (kind_of kind) }
{
    match kind {
        ObjectKind::Note => classes::note(),
        ObjectKind::Table => classes::table(),
        ObjectKind::Drawing => classes::drawing(),
    }
}

// The name of a kind's class for users.
fn user_type(alloc: Global, kind: ObjectKind) -> Result<Bytes, AllocError>
    ensures { IfOk result (λ t. t ≡ user_type (kind_of kind)) }
{
    let text = match kind {
        ObjectKind::Note => "Note",
        ObjectKind::Table => "Table",
        ObjectKind::Drawing => "Drawing",
    };
    Bytes::from_slice(alloc, text.as_bytes())
}

// What a new activation of an object is asked first.
fn first_operation(alloc: Global, object: &Object) -> Result<Operation, AllocError>
    ensures { IfOk result (λ op. op ≡ first_operation object.now object.now.work.streams) }
{
    if object.work.streams.is_empty() {
        Ok(Operation::InitNew(object.class))
    } else {
        Ok(Operation::Load(object.class, object.work.copy(alloc)?))
    }
}

/// A new activation of an object in a server, and what is sent to it: its first call, which gives it an empty storage,
/// or its work content where that has streams.
///
/// Refused for want of memory alone.
pub fn begun(
    alloc: Global,
    object: &Object,
    session: u32,
    inc: u32,
    act: u32,
) -> Result<(Link, Items<Action>), AllocError>
    ensures link { IfOk result (λ b. b.0 ≡ begun_link session inc act
        (first_operation object.now object.now.work.streams)) }
    ensures sent { IfOk result
        (λ b. b.1
        ≡ Send
        (record { session = session; said = Call inc act 1 (first_operation object.now object.now.work.streams) })
        ∷ []) }
{
    let operation = first_operation(alloc, object)?;
    let asked = operation.copy(alloc)?;
    let link = Link {
        session,
        inc,
        act,
        last: 1,
        pending: Some(operation),
        waiting: Items::new(alloc),
        states: States::new(),
        s: 0,
        w: 0,
        saved: None,
    };
    let mut actions = Items::new(alloc);
    actions.push(Action::Send(call(&link, 1, asked)))?;
    Ok((link, actions))
}

/// A passive object is activated.
pub fn begin(object: &mut Object, link: Link)
    ensures { object.new ≡ record object.old { link = Some link } }
{
    object.link = Some(link);
}
