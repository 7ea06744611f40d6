//! What a container does with a content that an object answers in a save.

ghost use Rattle.std.specs.Prelude.{◌+◌, ◌<◌, ◌≡◌, ◌≤◌, IfErr, IfOk, IfSome, Ok, OnErr, Some, length, slice_get, true};
ghost use Rattle.std.specs.Prelude.{false};
ghost use Rattle.container_links.specs.Handing.{answers, awaits_but};
ghost use Rattle.container_queues.specs.Steady.{Steady};
ghost use Rattle.container_model.specs.HandOffs.{hands_off_at};
ghost use Rattle.container_model.specs.Messages.{reply_found, reply_link};
ghost use Rattle.container_model.specs.Numbered.{IsNth};
ghost use Rattle.container_model.specs.Record.{Refuses, counts_none, is_linked};
ghost use Rattle.container_model.specs.Room.{IsSound};
ghost use Rattle.message_values.specs.Found.{find, IsPlace};

use crate::state::State;
use container_checks::objects::Objects;
use container_links::handing::{hand_off, hands_off_after, prepare_after};
use container_links::settling::settle_into;
use container_model::answer::Answer;
use container_model::fault::ContainerFault;
use container_model::record::Frame;
use container_objects::replies::{Told, answered, told_object};
use message_values::answer as reply;
use std::alloc::Global;

// Whether a frame hands off once the object that stands here has answered its content.
fn hands_off_then(number: u32, place: usize, frame: &Frame, objects: &Objects) -> bool
    requires { place < length objects.now.list.items }
    ensures { result ≡ hands_off_at frame.now.phase frame.now.asked (awaits_but number place objects.now.list.items) }
{
    hands_off_after(number, place, frame, objects.list.as_slice())
}

impl State {
    // A content that was awaited of the object that stands here: it may be the last that its frame's save waits for.
    pub(crate) fn content_at(
        &mut self,
        alloc: Global,
        i: usize,
        inc: u32,
        act: u32,
        n: u32,
        answer: reply::Answer,
    ) -> Result<Answer, ContainerFault>
        requires steady { Steady self.old }
        requires sound { IsSound self.old }
        requires place { IsPlace (is_linked inc act) self.old.objects i }
        requires content { IfSome (slice_get self.old.objects i)
            (λ o. answers o.link (reply_link n answer o.link) ≡ true) }
        ensures taken { IfOk result (λ a. reply_found self.old inc act n answer
            (find (is_linked inc act) self.old.objects) ≡ Ok (counts_none self.new a)) }
        ensures few { IfOk result (λ a. length a.actions ≤ length self.old.objects + length self.old.frames + 1) }
        ensures refused { IfErr result
            (Refuses (reply_found self.old inc act n answer (find (is_linked inc act) self.old.objects))) }
        ensures kept { OnErr result (self.new ≡ self.old) }
    {
        let f = self.objects.list[i].frame;
        let Some(at) = self.frames.place(f) else {
            unreachable!()
        };
        if hands_off_then(f, i, &self.frames[at], &self.objects) {
            self.last_content(alloc, i, at, inc, act, n, answer)
        } else {
            self.other_content(alloc, i, at, inc, act, n, answer)
        }
    }

    // The last one, where the frame is saved under another name.
    fn last_content(
        &mut self,
        alloc: Global,
        i: usize,
        at: usize,
        inc: u32,
        act: u32,
        n: u32,
        answer: reply::Answer,
    ) -> Result<Answer, ContainerFault>
        requires steady { Steady self.old }
        requires sound { IsSound self.old }
        requires place { IsPlace (is_linked inc act) self.old.objects i }
        requires content { IfSome (slice_get self.old.objects i)
            (λ o. answers o.link (reply_link n answer o.link) ≡ true) }
        requires frame { IfSome (slice_get self.old.objects i) (λ o. IsNth o.frame self.old.frames at) }
        requires hands { IfSome (slice_get self.old.objects i)
            (λ o. IfSome (slice_get self.old.frames at)
            (λ x. hands_off_at x.phase x.asked (awaits_but o.frame i self.old.objects) ≡ true)) }
        ensures taken { IfOk result (λ a. reply_found self.old inc act n answer
            (find (is_linked inc act) self.old.objects) ≡ Ok (counts_none self.new a)) }
        ensures few { IfOk result (λ a. length a.actions ≤ length self.old.objects + length self.old.frames + 1) }
        ensures refused { IfErr result
            (Refuses (reply_found self.old inc act n answer (find (is_linked inc act) self.old.objects))) }
        ensures kept { OnErr result (self.new ≡ self.old) }
    {
        let f = self.objects.list[i].frame;
        let Ok(takes) = prepare_after(alloc, f, i, self.objects.list.as_slice()) else {
            return Err(ContainerFault::NoMemory);
        };
        let more = self.frames.len() + self.objects.list.len();
        let Told {
            taken,
            refused,
            grant: _,
            mut actions,
        } = match told_object(alloc, &mut self.objects.list[i], n, answer, more) {
            Ok(replied) => replied,
            Err(fault) => return Err(fault),
        };
        hand_off(
            f,
            &mut self.frames[at],
            &mut self.objects.list,
            &mut actions,
            takes,
        );
        settle_into(&mut actions, &mut self.frames, &self.objects.list);
        Ok(answered(alloc, taken, refused, false, actions))
    }

    // Another one.
    fn other_content(
        &mut self,
        alloc: Global,
        i: usize,
        at: usize,
        inc: u32,
        act: u32,
        n: u32,
        answer: reply::Answer,
    ) -> Result<Answer, ContainerFault>
        requires steady { Steady self.old }
        requires sound { IsSound self.old }
        requires place { IsPlace (is_linked inc act) self.old.objects i }
        requires content { IfSome (slice_get self.old.objects i)
            (λ o. answers o.link (reply_link n answer o.link) ≡ true) }
        requires frame { IfSome (slice_get self.old.objects i) (λ o. IsNth o.frame self.old.frames at) }
        requires hands { IfSome (slice_get self.old.objects i)
            (λ o. IfSome (slice_get self.old.frames at)
            (λ x. hands_off_at x.phase x.asked (awaits_but o.frame i self.old.objects) ≡ false)) }
        ensures taken { IfOk result (λ a. reply_found self.old inc act n answer
            (find (is_linked inc act) self.old.objects) ≡ Ok (counts_none self.new a)) }
        ensures few { IfOk result (λ a. length a.actions ≤ length self.old.objects + length self.old.frames + 1) }
        ensures refused { IfErr result
            (Refuses (reply_found self.old inc act n answer (find (is_linked inc act) self.old.objects))) }
        ensures kept { OnErr result (self.new ≡ self.old) }
    {
        let more = self.frames.len();
        let Told {
            taken,
            refused,
            grant: _,
            mut actions,
        } = match told_object(alloc, &mut self.objects.list[i], n, answer, more) {
            Ok(replied) => replied,
            Err(fault) => return Err(fault),
        };
        settle_into(&mut actions, &mut self.frames, &self.objects.list);
        Ok(answered(alloc, taken, refused, false, actions))
    }
}
