//! Frames that are saved.

ghost use Rattle.std.specs.Prelude.{◌+◌, ◌≡◌, ◌≢◌, ◌≤◌, ℕ, IfErr, IfOk, IfSome, None, Ok, OnErr, OnOk, Result, Some};
ghost use Rattle.std.specs.Prelude.{length, slice_get};
ghost use Rattle.container_model.specs.Commands.{save, save_as, save_numbered, session};
ghost use Rattle.container_model.specs.Record.{Record, Refuses, Took, counts_none};
ghost use Rattle.container_model.specs.Numbered.{IsNth};
ghost use Rattle.container_model.specs.Room.{IsSound};
ghost use Rattle.container_model.specs.declared.fault.ContainerFault.{ContainerFault};
ghost use Rattle.container_model.specs.declared.fault.ContainerFault.TheVariants.{NoMemory};
ghost use Rattle.container_model.specs.declared.record.Frame as declared;
ghost use Rattle.container_model.specs.declared.record.Phase.TheVariants.{Idle};
ghost use Rattle.container_queues.specs.Steady.{Steady};
ghost use Rattle.container_commands.specs.Saving.{named, plain, raising, unready};

use crate::state::State;
use container_checks::checks;
use container_checks::objects::Objects;
use container_links::asking::take_up;
use container_links::settling::settle_into;
use container_model::answer::Answer;
use container_model::fault::ContainerFault;
use container_model::record::Frame;
use container_objects::saves::{begin_save, go_on, prepare_save};
use message_values::items::Items;
use std::alloc::Global;
use tree_values::bytes::Bytes;

// The frame whose document bears the session.
const FIRST: u32 = 1;

// Whether the objects of a frame may be asked for their contents.
//
// Refused: `InDoubt`, `Busy`.
fn may_save(number: u32, frame: &Frame, objects: &Objects) -> Result<(), ContainerFault>
    ensures may { OnOk result ((r : Record) (next : Result Took ContainerFault) → r.objects ≡ objects.now.list.items
        → unready r number frame.now next ≡ next) }
    ensures idle { OnOk result (frame.now.phase ≡ Idle) }
    ensures refused { IfErr result (λ e. (r : Record) (next : Result Took ContainerFault)
        → r.objects ≡ objects.now.list.items → Refuses (unready r number frame.now next) e) }
    ensures memory { IfErr result (λ fault. fault ≢ NoMemory) }
{
    if checks::is_doubtful(frame.phase) {
        return Err(ContainerFault::InDoubt);
    }
    if checks::is_saving(frame.phase) {
        return Err(ContainerFault::Busy);
    }
    let state = frame.ui.state();
    if checks::is_moving(&state) {
        return Err(ContainerFault::Busy);
    }
    if checks::any_busy(number, &state, objects.list.as_slice()) {
        return Err(ContainerFault::Busy);
    }
    Ok(())
}

// Whether frames may be saved with the sessions that they have: not before the container has one.
//
// Refused: `WrongState`.
fn may_follow(session: u32) -> Result<(), ContainerFault>
    ensures may { OnOk result ((r : Record) (f : ℕ) (frame : declared.Frame) → r.session ≡ session
        → plain r f frame ≡ save_numbered r f frame None None) }
    ensures refused { IfErr result (λ e. (r : Record) (f : ℕ) (frame : declared.Frame) → r.session ≡ session
        → Refuses (plain r f frame) e) }
    ensures memory { IfErr result (λ fault. fault ≢ NoMemory) }
{
    if session == 0 {
        return Err(ContainerFault::WrongState);
    }
    Ok(())
}

// Whether a frame may be saved under a name: one that no other frame bears or asked for, and not its own. The container
// has a session.
//
// Refused: `Busy`, `WrongState`.
fn may_bear(
    session: u32,
    number: u32,
    name: &[u8],
    frame: &Frame,
    frames: &[Frame],
) -> Result<(), ContainerFault>
    requires { length frames.now ≤ 1000000 }
    ensures may { OnOk result ((r : Record) → r.session ≡ session → r.frames ≡ frames.now
        → named r number name.now frame.now ≡ save_numbered r number frame.now None (Some name.now)) }
    ensures refused { IfErr result (λ e. (r : Record) → r.session ≡ session → r.frames ≡ frames.now
        → Refuses (named r number name.now frame.now) e) }
    ensures memory { IfErr result (λ fault. fault ≢ NoMemory) }
{
    if checks::is_named_beside(number, name, frames) {
        return Err(ContainerFault::Busy);
    }
    if session == 0 || frame.name.as_slice() == name {
        return Err(ContainerFault::WrongState);
    }
    Ok(())
}

// The session that the first frame's document may be raised to.
//
// Refused: `WrongState` where the container has a session, `NumbersSpent`.
fn may_raise(session: u32, numbers: u32, frame: &Frame) -> Result<u32, ContainerFault>
    ensures may { IfOk result (λ n. (r : Record) → r.session ≡ session → r.numbers ≡ numbers
        → raising r frame.now ≡ save_numbered r 1 frame.now (Some n) None) }
    ensures refused { IfErr result (λ e. (r : Record) → r.session ≡ session → r.numbers ≡ numbers
        → Refuses (raising r frame.now) e) }
    ensures memory { IfErr result (λ fault. fault ≢ NoMemory) }
{
    if session != 0 {
        return Err(ContainerFault::WrongState);
    }
    if frame.session >= numbers {
        return Err(ContainerFault::NumbersSpent);
    }
    Ok(frame.session + 1)
}

impl State {
    // The objects of a frame are asked for their contents.
    pub(crate) fn save(&mut self, alloc: Global, frame: u32) -> Result<Answer, ContainerFault>
        requires steady { Steady self.old }
        requires sound { IsSound self.old }
        ensures taken { IfOk result (λ a. save self.old frame ≡ Ok (counts_none self.new a)) }
        ensures few { IfOk result (λ a. length a.actions ≤ length self.old.objects + length self.old.frames) }
        ensures refused { IfErr result (Refuses (save self.old frame)) }
        ensures kept { OnErr result (self.new ≡ self.old) }
    {
        let Some(at) = self.frames.place(frame) else {
            return Err(ContainerFault::NoSuch);
        };
        match may_save(frame, &self.frames[at], &self.objects) {
            Ok(()) => {}
            Err(fault) => return Err(fault),
        }
        match may_follow(self.session) {
            Ok(()) => self.save_numbered(alloc, frame, at, None, None),
            Err(fault) => Err(fault),
        }
    }

    // The same, to a file of another name.
    pub(crate) fn save_as(
        &mut self,
        alloc: Global,
        frame: u32,
        name: Bytes,
    ) -> Result<Answer, ContainerFault>
        requires steady { Steady self.old }
        requires sound { IsSound self.old }
        ensures taken { IfOk result (λ a. save_as self.old frame name ≡ Ok (counts_none self.new a)) }
        ensures few { IfOk result (λ a. length a.actions ≤ length self.old.objects + length self.old.frames) }
        ensures refused { IfErr result (Refuses (save_as self.old frame name)) }
        ensures kept { OnErr result (self.new ≡ self.old) }
    {
        let Some(at) = self.frames.place(frame) else {
            return Err(ContainerFault::NoSuch);
        };
        match may_save(frame, &self.frames[at], &self.objects) {
            Ok(()) => {}
            Err(fault) => return Err(fault),
        }
        match may_bear(
            self.session,
            frame,
            name.as_slice(),
            &self.frames[at],
            self.frames.as_slice(),
        ) {
            Ok(()) => self.save_numbered(alloc, frame, at, None, Some(name)),
            Err(fault) => Err(fault),
        }
    }

    // The first frame is saved with the next session of its document, which is the container's once that is counted.
    pub(crate) fn begin_session(&mut self, alloc: Global) -> Result<Answer, ContainerFault>
        requires steady { Steady self.old }
        requires sound { IsSound self.old }
        ensures taken { IfOk result (λ a. session self.old ≡ Ok (counts_none self.new a)) }
        ensures few { IfOk result (λ a. length a.actions ≤ length self.old.objects + length self.old.frames) }
        ensures refused { IfErr result (Refuses (session self.old)) }
        ensures kept { OnErr result (self.new ≡ self.old) }
    {
        let Some(at) = self.frames.place(FIRST) else {
            return Err(ContainerFault::NoSuch);
        };
        match may_save(FIRST, &self.frames[at], &self.objects) {
            Ok(()) => {}
            Err(fault) => return Err(fault),
        }
        match may_raise(self.session, self.numbers, &self.frames[at]) {
            Ok(raised) => self.save_numbered(alloc, FIRST, at, Some(raised), None),
            Err(fault) => Err(fault),
        }
    }

    // The same where the frame isn't busy.
    fn save_numbered(
        &mut self,
        alloc: Global,
        frame: u32,
        at: usize,
        raised: Option<u32>,
        asked: Option<Bytes>,
    ) -> Result<Answer, ContainerFault>
        requires steady { Steady self.old }
        requires sound { IsSound self.old }
        requires place { IsNth frame self.old.frames at }
        requires idle { IfSome (slice_get self.old.frames at) (λ x. x.phase ≡ Idle) }
        ensures taken { IfOk result (λ a. IfSome (slice_get self.old.frames at)
            (λ x. save_numbered self.old frame x raised asked ≡ Ok (counts_none self.new a))) }
        ensures few { IfOk result (λ a. length a.actions ≤ length self.old.objects + length self.old.frames) }
        ensures refused { IfErr result (λ e. IfSome (slice_get self.old.frames at)
            (λ x. Refuses (save_numbered self.old frame x raised asked) e)) }
        ensures kept { OnErr result (self.new ≡ self.old) }
    {
        let k = self.frames[at].k;
        if k >= self.numbers
            || !checks::all_have_numbers(frame, self.numbers, self.objects.list.as_slice())
        {
            return Err(ContainerFault::NumbersSpent);
        }
        let Ok(asking) = prepare_save(alloc, frame, k + 1, self.objects.list.as_slice()) else {
            return Err(ContainerFault::NoMemory);
        };
        let mut actions = asking.actions;
        if actions.reserve(self.frames.len()).is_err() {
            return Err(ContainerFault::NoMemory);
        }
        let target = &mut self.frames[at];
        begin_save(target, raised, asked);
        take_up(&mut self.objects.list, asking.takes);
        go_on(frame, target, self.objects.list.as_slice());
        settle_into(&mut actions, &mut self.frames, &self.objects.list);
        Ok(Answer::acts(alloc, Items::from_vec(actions)))
    }
}
