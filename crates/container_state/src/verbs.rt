//! Objects that do a verb.

ghost use Rattle.std.specs.Prelude.{◌≡◌, ◌≢◌, ◌≤◌, ◌<◌, IfErr, IfOk, IfSome, Ok, OnErr, Some, is_some, length};
ghost use Rattle.std.specs.Prelude.{slice_get, true};
ghost use Rattle.container_queues.specs.Steady.{Steady};
ghost use Rattle.container_model.specs.Numbered.{IsNth, IsObjectAt};
ghost use Rattle.container_model.specs.Record.{Refuses, counts_none};
ghost use Rattle.container_model.specs.Room.{IsSound};
ghost use Rattle.container_model.specs.Verbs.{holder_of, leaving_made, taking, taking_made, verb, verb_framed};
ghost use Rattle.container_model.specs.Verbs.{verb_linked};
ghost use Rattle.container_model.specs.declared.record.Frame.{Frame};
ghost use Rattle.container_model.specs.declared.record.Link.{Link};
ghost use Rattle.container_model.specs.declared.record.Object.{Object};

use crate::state::State;
use container_checks::verbs::{
    holder_has_numbers, holder_of, may_move, steps_now, takes, verb_of, verb_steps,
};
use container_model::answer::Answer;
use container_model::fault::ContainerFault;
use container_objects::leaving::leave_object;
use container_objects::takings::{ask_taking, claim_frame, claim_of};
use object_state::{Step, Verb};
use std::alloc::Global;

impl State {
    // An object does the verb of this number.
    pub(crate) fn verb(
        &mut self,
        alloc: Global,
        object: u32,
        number: i64,
    ) -> Result<Answer, ContainerFault>
        requires steady { Steady self.old }
        requires sound { IsSound self.old }
        ensures taken { IfOk result (λ a. verb self.old object number ≡ Ok (counts_none self.new a)) }
        ensures few { IfOk result (λ a. length a.actions ≤ 2) }
        ensures there { IfOk result (λ a. 1 ≤ length self.old.objects) }
        ensures refused { IfErr result (Refuses (verb self.old object number)) }
        ensures kept { OnErr result (self.new ≡ self.old) }
    {
        let verb = verb_of(number);
        match self.place_ready(object) {
            Ok((i, at)) => self.verb_ready(alloc, i, at, verb),
            Err(fault) => Err(fault),
        }
    }

    // The same of an object that may be asked for something, and stands there.
    fn verb_ready(
        &mut self,
        alloc: Global,
        i: usize,
        at: usize,
        verb: Option<Verb>,
    ) -> Result<Answer, ContainerFault>
        requires steady { Steady self.old }
        requires sound { IsSound self.old }
        requires place { IsObjectAt self.old.objects i }
        requires frame { IfSome (slice_get self.old.objects i) (λ o. IsNth o.frame self.old.frames at) }
        ensures taken { IfOk result (λ a. IfSome (slice_get self.old.objects i)
            (λ o. IfSome (slice_get self.old.frames at) (λ frame. verb_framed self.old verb o frame
            ≡ Ok (counts_none self.new a)))) }
        ensures few { IfOk result (λ a. length a.actions ≤ 2) }
        ensures refused { IfErr result (λ e. IfSome (slice_get self.old.objects i)
            (λ o. IfSome (slice_get self.old.frames at) (λ frame. Refuses (verb_framed self.old verb o frame) e))) }
        ensures kept { OnErr result (self.new ≡ self.old) }
    {
        match may_move(&self.frames[at], verb) {
            Ok(()) => self.verb_object(alloc, i, at, verb),
            Err(fault) => Err(fault),
        }
    }

    // The object that stands there, in the frame that stands there, does a verb.
    fn verb_object(
        &mut self,
        alloc: Global,
        i: usize,
        at: usize,
        verb: Option<Verb>,
    ) -> Result<Answer, ContainerFault>
        requires steady { Steady self.old }
        requires sound { IsSound self.old }
        requires place { IsObjectAt self.old.objects i }
        requires frame { IfSome (slice_get self.old.objects i) (λ o. IsNth o.frame self.old.frames at) }
        ensures taken { IfOk result (λ a. IfSome (slice_get self.old.objects i)
            (λ o. IfSome (slice_get self.old.frames at) (λ frame. verb_linked self.old frame o verb o.link
            ≡ Ok (counts_none self.new a)))) }
        ensures few { IfOk result (λ a. length a.actions ≤ 2) }
        ensures refused { IfErr result (λ e. IfSome (slice_get self.old.objects i)
            (λ o. IfSome (slice_get self.old.frames at)
            (λ frame. Refuses (verb_linked self.old frame o verb o.link) e))) }
        ensures kept { OnErr result (self.new ≡ self.old) }
    {
        let steps = match verb_steps(self.numbers, &self.objects.list[i], verb) {
            Ok(steps) => steps,
            Err(fault) => return Err(fault),
        };
        if steps.is_empty() {
            return Ok(Answer::quiet(alloc));
        }
        if takes(steps) {
            return self.take(alloc, i, at, steps);
        }
        self.leave(alloc, i, at, steps)
    }

    // The object that stands there is asked for steps that don't take its frame.
    fn leave(
        &mut self,
        alloc: Global,
        i: usize,
        at: usize,
        steps: &[Step],
    ) -> Result<Answer, ContainerFault>
        requires sound { IsSound self.old }
        requires place { IsObjectAt self.old.objects i }
        requires frame { IfSome (slice_get self.old.objects i) (λ o. IsNth o.frame self.old.frames at) }
        requires linked { IfSome (slice_get self.old.objects i) (λ o. is_some o.link ≡ true) }
        ensures taken { IfOk result (λ a. (o : Object) (l : Link) (frame : Frame)
            → slice_get self.old.objects i ≡ Some o → slice_get self.old.frames at ≡ Some frame → o.link ≡ Some l
            → leaving_made self.old frame o l steps.now ≡ counts_none self.new a) }
        ensures few { IfOk result (λ a. length a.actions ≤ 1) }
        ensures refused { IfErr result (λ e. e ≡ ContainerFault.NoMemory) }
        ensures kept { OnErr result (self.new ≡ self.old) }
    {
        let frame = &mut self.frames[at];
        let object = &mut self.objects.list[i];
        match leave_object(alloc, frame, object, steps) {
            Ok(actions) => Ok(Answer::acts(alloc, actions)),
            Err(_) => Err(ContainerFault::NoMemory),
        }
    }

    // The object that stands there takes its frame.
    fn take(
        &mut self,
        alloc: Global,
        i: usize,
        at: usize,
        steps: &[Step],
    ) -> Result<Answer, ContainerFault>
        requires sound { IsSound self.old }
        requires place { IsObjectAt self.old.objects i }
        requires frame { IfSome (slice_get self.old.objects i) (λ o. IsNth o.frame self.old.frames at) }
        requires linked { IfSome (slice_get self.old.objects i) (λ o. is_some o.link ≡ true) }
        requires apart { IfSome (slice_get self.old.objects i)
            (λ o. IfSome (slice_get self.old.frames at) (λ f. IfSome (holder_of f.ui.state) (λ n. n ≢ o.number))) }
        ensures taken { IfOk result (λ a. (o : Object) (l : Link) (frame : Frame)
            → slice_get self.old.objects i ≡ Some o → slice_get self.old.frames at ≡ Some frame → o.link ≡ Some l
            → taking self.old frame o l steps.now ≡ Ok (counts_none self.new a)) }
        ensures few { IfOk result (λ a. length a.actions ≤ 2) }
        ensures refused { IfErr result (λ e. (o : Object) (l : Link) (frame : Frame)
            → slice_get self.old.objects i ≡ Some o → slice_get self.old.frames at ≡ Some frame → o.link ≡ Some l
            → Refuses (taking self.old frame o l steps.now) e) }
        ensures kept { OnErr result (self.new ≡ self.old) }
    {
        let state = self.frames[at].ui.state();
        let holder = holder_of(&state);
        if self.numbers <= self.last_g {
            return Err(ContainerFault::NumbersSpent);
        }
        if !holder_has_numbers(self.numbers, &self.objects, holder) {
            return Err(ContainerFault::NumbersSpent);
        }
        self.take_numbered(alloc, i, at, steps)
    }

    // The same once it is known that a grant can be drawn.
    fn take_numbered(
        &mut self,
        alloc: Global,
        i: usize,
        at: usize,
        steps: &[Step],
    ) -> Result<Answer, ContainerFault>
        requires sound { IsSound self.old }
        requires place { IsObjectAt self.old.objects i }
        requires frame { IfSome (slice_get self.old.objects i) (λ o. IsNth o.frame self.old.frames at) }
        requires linked { IfSome (slice_get self.old.objects i) (λ o. is_some o.link ≡ true) }
        requires apart { IfSome (slice_get self.old.objects i)
            (λ o. IfSome (slice_get self.old.frames at) (λ f. IfSome (holder_of f.ui.state) (λ n. n ≢ o.number))) }
        ensures taken { IfOk result (λ a. (o : Object) (l : Link) (frame : Frame)
            → slice_get self.old.objects i ≡ Some o → slice_get self.old.frames at ≡ Some frame → o.link ≡ Some l
            → taking_made self.old frame o l steps.now ≡ counts_none self.new a) }
        ensures few { IfOk result (λ a. length a.actions ≤ 2) }
        ensures refused { IfErr result (λ e. e ≡ ContainerFault.NoMemory) }
        ensures kept { OnErr result (self.new ≡ self.old) }
    {
        let state = self.frames[at].ui.state();
        let now = steps_now(&state, steps);
        let g = self.last_g + 1;
        let claim = claim_of(&self.objects.list[i], g);
        let holder = holder_of(&state);
        let actions = match ask_taking(alloc, &mut self.objects, i, holder, g, now) {
            Ok(actions) => actions,
            Err(_) => return Err(ContainerFault::NoMemory),
        };
        claim_frame(&mut self.frames[at], claim);
        self.last_g = g;
        Ok(Answer::acts(alloc, actions))
    }
}
