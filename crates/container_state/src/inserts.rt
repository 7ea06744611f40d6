//! New objects.

ghost use Rattle.std.specs.Prelude.{◌≡◌, ◌≢◌, ◌+◌, ◌≤◌, ◌∷◌, [], ℕ, IfErr, IfOk, Ok, OnErr, OnOk, Some, length};
ghost use Rattle.container_model.specs.Commands.{insert, insert_at, insert_into, insert_made, kind_of};
ghost use Rattle.container_model.specs.Record.{Record, Refuses, counts_none, quiet_answer};
ghost use Rattle.container_model.specs.declared.command.ObjectKind.{ObjectKind};
ghost use Rattle.container_model.specs.declared.fault.ContainerFault.TheVariants.{NoMemory};
ghost use Rattle.container_queues.specs.Steady.{Steady};

use crate::state::State;
use container_checks::checks;
use container_model::answer::Answer;
use container_model::command::ObjectKind;
use container_model::fault::ContainerFault;
use container_model::record::Frame;
use container_objects::activations::new_object;
use std::alloc::{AllocError, Global};
use tree_streams::area::Area;

// How many objects a frame may have.
const MOST_OBJECTS: usize = 64;

// Whether a frame takes an object on an area, as far as its phase and the area tell.
//
// Refused: `InDoubt`, `Busy`, `WrongState`.
fn may_insert(frame: &Frame, area: Area) -> Result<(), ContainerFault>
    ensures may { OnOk result ((r : Record) (f : ℕ) (kind : ObjectKind)
        → insert_at r f (kind_of kind) area (Some frame.now) ≡ insert_into r f (kind_of kind) area) }
    ensures refused { IfErr result (λ e. (r : Record) (f : ℕ) (kind : ObjectKind)
        → Refuses (insert_at r f (kind_of kind) area (Some frame.now)) e) }
    ensures memory { IfErr result (λ fault. fault ≢ NoMemory) }
{
    if checks::is_doubtful(frame.phase) {
        return Err(ContainerFault::InDoubt);
    }
    if checks::is_saving(frame.phase) {
        return Err(ContainerFault::Busy);
    }
    if checks::is_empty_area(area) {
        return Err(ContainerFault::WrongState);
    }
    Ok(())
}

// The answer that an object was made.
fn made(alloc: Global, number: u32) -> Result<Answer, AllocError>
    ensures { IfOk result (λ a. a ≡ record quiet_answer { objects = number ∷ [] }) }
{
    let mut answer = Answer::quiet(alloc);
    answer.objects.push(number)?;
    Ok(answer)
}

impl State {
    // A new passive object without content.
    pub(crate) fn insert(
        &mut self,
        alloc: Global,
        frame: u32,
        kind: ObjectKind,
        area: Area,
    ) -> Result<Answer, ContainerFault>
        requires { Steady self.old }
        ensures taken { IfOk result (λ a. insert self.old frame (kind_of kind) area ≡ Ok (counts_none self.new a)) }
        ensures few { IfOk result (λ a. length a.actions ≤ 1) }
        ensures refused { IfErr result (Refuses (insert self.old frame (kind_of kind) area)) }
        ensures kept { OnErr result (self.new ≡ self.old) }
    {
        let Some(at) = self.frames.place(frame) else {
            return Err(ContainerFault::NoSuch);
        };
        match may_insert(&self.frames[at], area) {
            Ok(()) => self.insert_into(alloc, frame, kind, area),
            Err(fault) => Err(fault),
        }
    }

    // A new passive object in a frame that takes one.
    fn insert_into(
        &mut self,
        alloc: Global,
        frame: u32,
        kind: ObjectKind,
        area: Area,
    ) -> Result<Answer, ContainerFault>
        requires { Steady self.old }
        ensures taken { IfOk result (λ a. insert_into self.old frame (kind_of kind) area
            ≡ Ok (counts_none self.new a)) }
        ensures few { IfOk result (λ a. length a.actions ≤ 1) }
        ensures refused { IfErr result (Refuses (insert_into self.old frame (kind_of kind) area)) }
        ensures kept { OnErr result (self.new ≡ self.old) }
    {
        if checks::count_objects(frame, self.objects.list.as_slice()) >= MOST_OBJECTS {
            return Err(ContainerFault::Full);
        }
        if self.last_object >= self.numbers {
            return Err(ContainerFault::NumbersSpent);
        }
        let number = self.last_object + 1;
        match self.insert_numbered(alloc, number, frame, kind, area) {
            Ok(answer) => Ok(answer),
            Err(_) => Err(ContainerFault::NoMemory),
        }
    }

    // A new passive object of the next number.
    fn insert_numbered(
        &mut self,
        alloc: Global,
        number: u32,
        frame: u32,
        kind: ObjectKind,
        area: Area,
    ) -> Result<Answer, AllocError>
        requires number { number ≡ self.old.last_object + 1 }
        requires steady { Steady self.old }
        ensures taken { IfOk result (λ a. insert_made self.old frame (kind_of kind) area ≡ counts_none self.new a) }
        ensures few { IfOk result (λ a. length a.actions ≤ 1) }
        ensures kept { OnErr result (self.new ≡ self.old) }
    {
        let object = new_object(alloc, number, frame, kind, area)?;
        let answer = made(alloc, number)?;
        self.objects.push(object)?;
        self.last_object = number;
        Ok(answer)
    }
}
