//! Objects that are asked to close.

ghost use Rattle.std.specs.Prelude.{◌≡◌, ◌≤◌, IfErr, IfOk, IfSome, Ok, OnErr, length, slice_get};
ghost use Rattle.container_model.specs.Numbered.{IsNth, IsObjectAt};
ghost use Rattle.container_model.specs.Record.{Refuses, counts_none};
ghost use Rattle.container_model.specs.Room.{IsSound};
ghost use Rattle.container_model.specs.Verbs.{close, close_linked};

use crate::state::State;
use container_model::answer::Answer;
use container_model::fault::ContainerFault;
use container_objects::closes::close_one;
use object_state::CloseOption;
use std::alloc::Global;

impl State {
    // An object that isn't passive is asked to close.
    pub(crate) fn close(
        &mut self,
        alloc: Global,
        object: u32,
        option: CloseOption,
    ) -> Result<Answer, ContainerFault>
        requires { IsSound self.old }
        ensures taken { IfOk result (λ a. close self.old object option ≡ Ok (counts_none self.new a)) }
        ensures few { IfOk result (λ a. length a.actions ≤ 1) }
        ensures refused { IfErr result (Refuses (close self.old object option)) }
        ensures kept { OnErr result (self.new ≡ self.old) }
    {
        match self.place_ready(object) {
            Ok((i, at)) => self.close_object(alloc, i, at, option),
            Err(fault) => Err(fault),
        }
    }

    // The object that stands there, in the frame that stands there, is asked to close.
    fn close_object(
        &mut self,
        alloc: Global,
        i: usize,
        at: usize,
        option: CloseOption,
    ) -> Result<Answer, ContainerFault>
        requires sound { IsSound self.old }
        requires place { IsObjectAt self.old.objects i }
        requires frame { IfSome (slice_get self.old.objects i) (λ o. IsNth o.frame self.old.frames at) }
        ensures taken { IfOk result (λ a. IfSome (slice_get self.old.objects i)
            (λ o. IfSome (slice_get self.old.frames at) (λ frame. close_linked self.old frame o option o.link
            ≡ Ok (counts_none self.new a)))) }
        ensures few { IfOk result (λ a. length a.actions ≤ 1) }
        ensures refused { IfErr result (λ e. IfSome (slice_get self.old.objects i)
            (λ o. IfSome (slice_get self.old.frames at)
            (λ frame. Refuses (close_linked self.old frame o option o.link) e))) }
        ensures kept { OnErr result (self.new ≡ self.old) }
    {
        let frame = &mut self.frames[at];
        let object = &mut self.objects.list[i];
        let actions = match close_one(alloc, self.numbers, frame, object, option) {
            Ok(actions) => actions,
            Err(fault) => return Err(fault),
        };
        Ok(Answer::acts(alloc, actions))
    }
}
