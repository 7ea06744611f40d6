//! What an activation does with a call.

ghost use Rattle.std.specs.Prelude.{◌≡◌, ◌+◌, Some, None, IfErr, IfOk, OnErr, option_map};
ghost use Rattle.message_values.specs.declared.operation.Operation.TheVariants as op;
ghost use Rattle.server_model.specs.Opened.{Acts, Writes, does_now, stored_open, write_open};
ghost use Rattle.server_model.specs.Server.{Refuses, known_call, next_call, refuses};
ghost use Rattle.server_core.specs.Kept.{whole};
ghost use Rattle.server_core.specs.View.{KeepsOthers, seen_activation};

use crate::facts::{Answered, Facts};
use crate::seats::Seats;
use crate::server::{Activation, Seat};
use message_values::answer::Answer;
use message_values::message::Said;
use message_values::operation::Operation;
use message_values::refusal::Refusal;
use object_core::fault::EmbedFault;
use object_state::{CloseOption, States};
use server_model::fault::ServerFault;
use std::alloc::Global;
use tree_streams::stored::Stored;
use tree_values::bytes::Bytes;

// What is stored of an object, where there is one.
fn stored(alloc: Global, seat: &Option<Seat>) -> Result<Stored, ServerFault>
    ensures stored { IfOk result (λ s. stored_open (option_map (λ s. content s.boxed) seat.now) ≡ Ok s) }
    ensures refused { IfErr result (Refuses (stored_open (option_map (λ s. content s.boxed) seat.now))) }
{
    match seat {
        Some(seat) => match seat.stored(alloc) {
            Ok(stored) => Ok(stored),
            Err(_) => Err(ServerFault::NoMemory),
        },
        None => Err(ServerFault::Ignored),
    }
}

impl Facts {
    fn edit(
        &mut self,
        alloc: Global,
        act: u32,
        seat: &mut Option<Seat>,
        n: u32,
        states: States,
        edit: &Bytes,
    ) -> Result<Answered, ServerFault>
        requires { n ≡ self.old.last + 1 }
        ensures acted { IfOk result
            (λ t. Acts (does_now (whole act self.old (option_map (λ s. content s.boxed) seat.old)) states
            (op.Edit edit.now)) (whole act self.new (option_map (λ s. content s.boxed) seat.new)) t.answer
            t.counted) }
        ensures refused { IfErr result
            (Refuses (does_now (whole act self.old (option_map (λ s. content s.boxed) seat.old)) states
            (op.Edit edit.now))) }
        ensures kept { OnErr result (whole act self.new (option_map (λ s. content s.boxed) seat.new)
            ≡ whole act self.old (option_map (λ s. content s.boxed) seat.old)) }
    {
        let Some(mut taken) = seat.take() else {
            return Err(ServerFault::Ignored);
        };
        let edited = taken.boxed.edit(alloc, edit.as_slice());
        *seat = Some(taken);
        match edited {
            Ok(()) => Ok(self.done(n, states)),
            Err(EmbedFault::BadEdit) => Ok(self.refused_in(n, states, Refusal::BadEdit)),
            Err(EmbedFault::BadContent) => Ok(self.refused_in(n, states, Refusal::BadContent)),
            Err(EmbedFault::TooBig) => Ok(self.refused_in(n, states, Refusal::TooBig)),
            Err(EmbedFault::NoMemory) => Err(ServerFault::NoMemory),
        }
    }

    fn save(
        &mut self,
        alloc: Global,
        act: u32,
        seat: &mut Option<Seat>,
        n: u32,
        states: States,
        k: u32,
    ) -> Result<Answered, ServerFault>
        requires { n ≡ self.old.last + 1 }
        ensures acted { IfOk result
            (λ t. Acts (does_now (whole act self.old (option_map (λ s. content s.boxed) seat.old)) states
            (op.Save k)) (whole act self.new (option_map (λ s. content s.boxed) seat.new)) t.answer t.counted) }
        ensures refused { IfErr result
            (Refuses (does_now (whole act self.old (option_map (λ s. content s.boxed) seat.old)) states
            (op.Save k))) }
        ensures kept { OnErr result (whole act self.new (option_map (λ s. content s.boxed) seat.new)
            ≡ whole act self.old (option_map (λ s. content s.boxed) seat.old)) }
    {
        let saved = stored(alloc, seat)?;
        let kept = saved.copy(alloc)?;
        let told = saved.copy(alloc)?;
        self.settle_save(n, states, saved, Answer::Content(kept));
        Ok(Answered::alone(Answer::Content(told)))
    }

    fn completed(
        &mut self,
        alloc: Global,
        act: u32,
        seat: &mut Option<Seat>,
        n: u32,
        states: States,
        k: u32,
        storage: bool,
    ) -> Result<Answered, ServerFault>
        requires { n ≡ self.old.last + 1 }
        ensures acted { IfOk result
            (λ t. Acts (does_now (whole act self.old (option_map (λ s. content s.boxed) seat.old)) states
            (op.SaveCompleted k storage)) (whole act self.new (option_map (λ s. content s.boxed) seat.new)) t.answer
            t.counted) }
        ensures refused { IfErr result
            (Refuses (does_now (whole act self.old (option_map (λ s. content s.boxed) seat.old)) states
            (op.SaveCompleted k storage))) }
        ensures kept { OnErr result (whole act self.new (option_map (λ s. content s.boxed) seat.new)
            ≡ whole act self.old (option_map (λ s. content s.boxed) seat.old)) }
    {
        if seat.is_none() {
            return Err(ServerFault::Ignored);
        }
        let counted = self.counted(alloc, act, k)?;
        self.settle_end(n, states);
        Ok(Answered {
            answer: Answer::Done,
            counted,
        })
    }

    fn ui_activate(
        &mut self,
        act: u32,
        seat: &mut Option<Seat>,
        n: u32,
        states: States,
        grant: u32,
    ) -> Result<Answered, ServerFault>
        requires { n ≡ self.old.last + 1 }
        ensures acted { IfOk result
            (λ t. Acts (does_now (whole act self.old (option_map (λ s. content s.boxed) seat.old)) states
            (op.UiActivate grant)) (whole act self.new (option_map (λ s. content s.boxed) seat.new)) t.answer
            t.counted) }
        ensures refused { IfErr result
            (Refuses (does_now (whole act self.old (option_map (λ s. content s.boxed) seat.old)) states
            (op.UiActivate grant))) }
        ensures kept { OnErr result (whole act self.new (option_map (λ s. content s.boxed) seat.new)
            ≡ whole act self.old (option_map (λ s. content s.boxed) seat.old)) }
    {
        let (menus, border) = match &*seat {
            Some(seat) => (seat.boxed.menus(), seat.boxed.border()),
            None => return Err(ServerFault::Ignored),
        };
        Ok(self.ui_active(n, states, grant, &menus, border))
    }

    fn close(
        &mut self,
        alloc: Global,
        act: u32,
        seat: &mut Option<Seat>,
        n: u32,
        states: States,
        option: CloseOption,
    ) -> Result<Answered, ServerFault>
        requires { n ≡ self.old.last + 1 }
        ensures acted { IfOk result
            (λ t. Acts (does_now (whole act self.old (option_map (λ s. content s.boxed) seat.old)) states
            (op.Close option)) (whole act self.new (option_map (λ s. content s.boxed) seat.new)) t.answer
            t.counted) }
        ensures refused { IfErr result
            (Refuses (does_now (whole act self.old (option_map (λ s. content s.boxed) seat.old)) states
            (op.Close option))) }
        ensures kept { OnErr result (whole act self.new (option_map (λ s. content s.boxed) seat.new)
            ≡ whole act self.old (option_map (λ s. content s.boxed) seat.old)) }
    {
        match option {
            CloseOption::SaveIfDirty => {
                let kept = stored(alloc, seat)?;
                let told = kept.copy(alloc)?;
                *seat = None;
                self.settle(n, states, Answer::Content(kept));
                Ok(Answered::alone(Answer::Content(told)))
            }
            CloseOption::NoSave => {
                if seat.is_none() {
                    return Err(ServerFault::Ignored);
                }
                *seat = None;
                Ok(self.done(n, states))
            }
        }
    }

    // An operation that the tables take.
    fn act(
        &mut self,
        alloc: Global,
        act: u32,
        seat: &mut Option<Seat>,
        n: u32,
        states: States,
        operation: &Operation,
    ) -> Result<Answered, ServerFault>
        requires { n ≡ self.old.last + 1 }
        ensures acted { IfOk result
            (λ t. Acts (does_now (whole act self.old (option_map (λ s. content s.boxed) seat.old)) states
            operation.now) (whole act self.new (option_map (λ s. content s.boxed) seat.new)) t.answer t.counted) }
        ensures refused { IfErr result
            (Refuses (does_now (whole act self.old (option_map (λ s. content s.boxed) seat.old)) states
            operation.now)) }
        ensures kept { OnErr result (whole act self.new (option_map (λ s. content s.boxed) seat.new)
            ≡ whole act self.old (option_map (λ s. content s.boxed) seat.old)) }
    {
        if seat.is_none() {
            return Err(ServerFault::Ignored);
        }
        match operation {
            Operation::UiActivate(grant) => self.ui_activate(act, seat, n, states, *grant),
            Operation::UiDeactivate => Ok(self.ui_inactive(n, states)),
            Operation::Edit(edit) => self.edit(alloc, act, seat, n, states, edit),
            Operation::Save(k) => self.save(alloc, act, seat, n, states, *k),
            Operation::SaveCompleted { save, storage } => self.completed(
                alloc, act, seat, n, states, *save, *storage,
            ),
            Operation::SaveDropped(_) => Ok(self.dropped(n, states)),
            Operation::Close(option) => self.close(alloc, act, seat, n, states, *option),
            Operation::InitNew(_)
            | Operation::Load(_, _)
            | Operation::InPlace
            | Operation::InPlaceDeactivate
            | Operation::OpenWindow
            | Operation::HandsOff => Ok(self.done(n, states)),
        }
    }

    // An operation that the tables don't take. It closes the activation where it is InitNew or Load.
    fn refuse(
        &mut self,
        act: u32,
        seat: &mut Option<Seat>,
        n: u32,
        operation: &Operation,
        refusal: Refusal,
    ) -> Answered
        requires { n ≡ self.old.last + 1 }
        ensures { refuses (whole act self.old (option_map (λ s. content s.boxed) seat.old)) operation.now refusal
            ≡ record {
              activation = whole act self.new (option_map (λ s. content s.boxed) seat.new);
              answer = result.answer;
              counted = result.counted;
            } }
    {
        if let Operation::InitNew(_) | Operation::Load(_, _) = operation {
            *seat = None;
        }
        self.refused(n, refusal)
    }

    // The next call.
    fn next(
        &mut self,
        alloc: Global,
        act: u32,
        seat: &mut Option<Seat>,
        n: u32,
        operation: &Operation,
    ) -> Result<Answered, ServerFault>
        requires { n ≡ self.old.last + 1 }
        ensures acted { IfOk result
            (λ t. Acts (next_call (whole act self.old (option_map (λ s. content s.boxed) seat.old)) operation.now
            (whole act self.old (option_map (λ s. content s.boxed) seat.old)).content)
            (whole act self.new (option_map (λ s. content s.boxed) seat.new)) t.answer t.counted) }
        ensures refused { IfErr result
            (Refuses (next_call (whole act self.old (option_map (λ s. content s.boxed) seat.old)) operation.now
            (whole act self.old (option_map (λ s. content s.boxed) seat.old)).content)) }
        ensures kept { OnErr result (whole act self.new (option_map (λ s. content s.boxed) seat.new)
            ≡ whole act self.old (option_map (λ s. content s.boxed) seat.old)) }
    {
        if seat.is_none() {
            return Err(ServerFault::Ignored);
        }
        match self.step(operation.op()) {
            Ok(states) => self.act(alloc, act, seat, n, states, operation),
            Err(fault) => Ok(self.refuse(act, seat, n, operation, Refusal::of_state(fault))),
        }
    }

    // Call n: the next acts, the last is answered again.
    fn on_call(
        &mut self,
        alloc: Global,
        act: u32,
        seat: &mut Option<Seat>,
        n: u32,
        operation: &Operation,
    ) -> Result<Answered, ServerFault>
        ensures acted { IfOk result
            (λ t. Acts (known_call (whole act self.old (option_map (λ s. content s.boxed) seat.old)) n
            operation.now) (whole act self.new (option_map (λ s. content s.boxed) seat.new)) t.answer t.counted) }
        ensures refused { IfErr result
            (Refuses (known_call (whole act self.old (option_map (λ s. content s.boxed) seat.old)) n
            operation.now)) }
        ensures kept { OnErr result (whole act self.new (option_map (λ s. content s.boxed) seat.new)
            ≡ whole act self.old (option_map (λ s. content s.boxed) seat.old)) }
        ensures closed { seat.old ≡ None → seat.new ≡ None }
    {
        if n == self.last() {
            let reply = self.reply(alloc)?;
            return Ok(Answered::alone(reply));
        }
        if !self.is_next(n) {
            return Err(ServerFault::Ignored);
        }
        self.next(alloc, act, seat, n, operation)
    }
}

impl Activation {
    /// Call n: the next acts, the last is answered again.
    ///
    /// Refused: `Ignored` any other call, and the next one where the activation is closed; then `NoMemory`. Then
    /// nothing changes.
    pub(crate) fn on_call(
        &mut self,
        alloc: Global,
        act: u32,
        seats: &mut Seats,
        n: u32,
        operation: &Operation,
    ) -> Result<Answered, ServerFault>
        ensures acted { IfOk result
            (λ t. Acts (known_call (seen_activation (λ s. content s.boxed) seats.old.slab.slots (act, self.old)) n
            operation.now) (seen_activation (λ s. content s.boxed) seats.new.slab.slots (act, self.new)) t.answer
            t.counted) }
        ensures refused { IfErr result
            (Refuses (known_call (seen_activation (λ s. content s.boxed) seats.old.slab.slots (act, self.old)) n
            operation.now)) }
        ensures kept { OnErr result (seen_activation (λ s. content s.boxed) seats.new.slab.slots (act, self.new)
            ≡ seen_activation (λ s. content s.boxed) seats.old.slab.slots (act, self.old)) }
        ensures others { KeepsOthers act seats.old.slab.slots seats.new.slab.slots }
    {
        let mut seat = seats.take(act, self.key);
        let told = self.facts.on_call(alloc, act, &mut seat, n, operation);
        self.key = seats.put(act, seat);
        told
    }

    /// A write of its own accord, of the content that it has now.
    ///
    /// Refused: `Ignored` where it is closed or may not write; `NumbersSpent` where it made so many writes; then
    /// `NoMemory`. Then nothing changes.
    pub(crate) fn write(
        &mut self,
        alloc: Global,
        act: u32,
        seats: &Seats,
        inc: u32,
        numbers: u32,
    ) -> Result<Said, ServerFault>
        ensures written { IfOk result
            (λ m. Writes
            (write_open inc numbers (seen_activation (λ s. content s.boxed) seats.now.slab.slots (act, self.old))
            (seen_activation (λ s. content s.boxed) seats.now.slab.slots (act, self.old)).content)
            (seen_activation (λ s. content s.boxed) seats.now.slab.slots (act, self.new)) m) }
        ensures refused { IfErr result
            (Refuses (write_open inc numbers (seen_activation (λ s. content s.boxed) seats.now.slab.slots
            (act, self.old)) (seen_activation (λ s. content s.boxed) seats.now.slab.slots
            (act, self.old)).content)) }
        ensures kept { OnErr result (self.new ≡ self.old) }
    {
        let Some(seat) = seats.get(act, self.key) else {
            return Err(ServerFault::Ignored);
        };
        if !self.facts.may_write() {
            return Err(ServerFault::Ignored);
        }
        if self.facts.writes() >= numbers {
            return Err(ServerFault::NumbersSpent);
        }
        match seat.stored(alloc) {
            Ok(content) => Ok(self.facts.write(inc, act, content)),
            Err(_) => Err(ServerFault::NoMemory),
        }
    }
}
