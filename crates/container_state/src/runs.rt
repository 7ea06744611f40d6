//! Passive objects that are activated.

ghost use Rattle.std.specs.Prelude.{◌≡◌, ◌≤◌, IfErr, IfOk, IfSome, Ok, OnErr, length, slice_get};
ghost use Rattle.container_model.specs.Commands.{run, run_object};
ghost use Rattle.container_model.specs.Record.{Refuses, counts_none};
ghost use Rattle.container_model.specs.Numbered.{IsObjectAt};

use crate::state::State;
use container_checks::checks;
use container_model::answer::Answer;
use container_model::fault::ContainerFault;
use container_objects::activations::{begin, begun};
use std::alloc::Global;

impl State {
    // A new activation of a passive object.
    pub(crate) fn run(
        &mut self,
        alloc: Global,
        object: u32,
        inc: u32,
    ) -> Result<Answer, ContainerFault>
        ensures taken { IfOk result (λ a. run self.old object inc ≡ Ok (counts_none self.new a)) }
        ensures few { IfOk result (λ a. length a.actions ≤ 1) }
        ensures refused { IfErr result (Refuses (run self.old object inc)) }
        ensures kept { OnErr result (self.new ≡ self.old) }
    {
        if !self.servers.is_alive(inc) {
            return Err(ContainerFault::NoSuch);
        }
        match self.place_ready(object) {
            Ok((i, _)) => self.run_object(alloc, i, inc),
            Err(fault) => Err(fault),
        }
    }

    // A new activation of the object that stands there.
    fn run_object(&mut self, alloc: Global, i: usize, inc: u32) -> Result<Answer, ContainerFault>
        requires { IsObjectAt self.old.objects i }
        ensures taken { IfOk result (λ a. IfSome (slice_get self.old.objects i)
            (λ o. run_object self.old o inc ≡ Ok (counts_none self.new a))) }
        ensures few { IfOk result (λ a. length a.actions ≤ 1) }
        ensures refused { IfErr result (λ e. IfSome (slice_get self.old.objects i)
            (λ o. Refuses (run_object self.old o inc) e)) }
        ensures kept { OnErr result (self.new ≡ self.old) }
    {
        let object = &self.objects.list[i];
        if object.link.is_some() {
            return Err(ContainerFault::WrongState);
        }
        if !checks::is_known_class(object.class) {
            return Err(ContainerFault::UnknownClass);
        }
        if (self.numbers as usize) < checks::MARGIN || self.last_act >= self.numbers {
            return Err(ContainerFault::NumbersSpent);
        }
        let act = self.last_act + 1;
        let Ok((link, actions)) = begun(alloc, object, self.session, inc, act) else {
            return Err(ContainerFault::NoMemory);
        };
        self.last_act = act;
        begin(&mut self.objects.list[i], link);
        Ok(Answer::acts(alloc, actions))
    }
}
