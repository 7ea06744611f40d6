//! Objects that are asked for an edit.

ghost use Rattle.std.specs.Prelude.{◌+◌, ◌≡◌, ◌≤◌, IfErr, IfOk, Ok, OnErr, length};
ghost use Rattle.container_links.specs.Asking.{HasNumber};
ghost use Rattle.container_model.specs.Commands.{edit_fault, edit_linked};
ghost use Rattle.container_model.specs.Record.{Record, Refuses, acts, counts_none, with_object};
ghost use Rattle.container_model.specs.Room.{IfLinked};

use container_checks::checks::has_numbers;
use container_links::asking::ask_object;
use container_model::answer::Action;
use container_model::fault::ContainerFault;
use container_model::record::{Link, Object};
use message_values::items::Items;
use message_values::operation::Operation;
use std::alloc::Global;
use tree_values::bytes::Bytes;

/// How many bytes an edit may have.
const MOST_EDIT: usize = 65_536;

// Why an activation isn't asked for an edit of so many bytes.
fn edit_fault(numbers: u32, link: &Option<Link>, size: usize) -> Option<ContainerFault>
    requires { IfLinked (λ l. l.last + length l.waiting ≤ 1000000) link.now }
    ensures { result ≡ edit_fault numbers size link.now }
{
    match link {
        None => Some(ContainerFault::NotRunning),
        Some(link) => {
            if size > MOST_EDIT {
                Some(ContainerFault::WrongState)
            } else if has_numbers(numbers, link) {
                None
            } else {
                Some(ContainerFault::NumbersSpent)
            }
        }
    }
}

/// An object is asked for an edit: at once where no call is pending, else behind the operations that wait. What is to
/// be done for it.
///
/// Refused: `NotRunning` where the object is passive; `WrongState` where the edit has more than 65,536 bytes;
/// `NumbersSpent`; then `NoMemory`. A refusal changes nothing.
pub fn edit_one(
    alloc: Global,
    numbers: u32,
    object: &mut Object,
    bytes: Bytes,
) -> Result<Items<Action>, ContainerFault>
    requires { HasNumber object.old }
    ensures taken { IfOk result (λ actions. (r : Record) → r.numbers ≡ numbers
        → edit_linked r object.old bytes object.old.link
        ≡ Ok (counts_none (with_object r object.new) (acts actions))) }
    ensures few { IfOk result (λ actions. length actions ≤ 1) }
    ensures refused { IfErr result (λ e. (r : Record) → r.numbers ≡ numbers
        → Refuses (edit_linked r object.old bytes object.old.link) e) }
    ensures same { object.new.number ≡ object.old.number }
    ensures kept { OnErr result (object.new ≡ object.old) }
{
    if let Some(fault) = edit_fault(numbers, &object.link, bytes.len()) {
        return Err(fault);
    }
    match ask_object(alloc, object, Operation::Edit(bytes)) {
        Ok(actions) => Ok(actions),
        Err(_) => Err(ContainerFault::NoMemory),
    }
}
