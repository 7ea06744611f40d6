//! Passive objects that are deleted.

ghost use Rattle.std.specs.Prelude.{◌≡◌, ◌≢◌, ◌≤◌, IfErr, IfOk, IfSome, Ok, OnErr, is_some, length, slice_get};
ghost use Rattle.container_model.specs.Commands.{delete, delete_made};
ghost use Rattle.container_model.specs.Record.{Refuses, counts_none, unless};
ghost use Rattle.container_model.specs.Numbered.{IsObjectAt};
ghost use Rattle.container_model.specs.declared.fault.ContainerFault.TheVariants.{NoMemory, WrongState};

use crate::state::State;
use container_model::answer::Answer;
use container_model::fault::ContainerFault;
use std::alloc::Global;

impl State {
    // A passive object goes.
    pub(crate) fn delete(&mut self, alloc: Global, object: u32) -> Result<Answer, ContainerFault>
        ensures taken { IfOk result (λ a. delete self.old object ≡ Ok (counts_none self.new a)) }
        ensures few { IfOk result (λ a. length a.actions ≤ 1) }
        ensures refused { IfErr result (Refuses (delete self.old object)) }
        ensures memory { IfErr result (λ fault. fault ≢ NoMemory) }
        ensures kept { OnErr result (self.new ≡ self.old) }
    {
        match self.place_ready(object) {
            Ok((i, _)) => self.delete_object(alloc, i),
            Err(fault) => Err(fault),
        }
    }

    // The object that stands there goes, where it is passive.
    fn delete_object(&mut self, alloc: Global, i: usize) -> Result<Answer, ContainerFault>
        requires { IsObjectAt self.old.objects i }
        ensures taken { IfOk result (λ a. IfSome (slice_get self.old.objects i)
            (λ o. unless (is_some o.link) WrongState (Ok (delete_made self.old o)) ≡ Ok (counts_none self.new a))) }
        ensures few { IfOk result (λ a. length a.actions ≤ 1) }
        ensures refused { IfErr result (λ e. IfSome (slice_get self.old.objects i)
            (λ o. Refuses (unless (is_some o.link) WrongState (Ok (delete_made self.old o))) e)) }
        ensures memory { IfErr result (λ fault. fault ≢ NoMemory) }
        ensures kept { OnErr result (self.new ≡ self.old) }
    {
        if self.objects.list[i].link.is_some() {
            return Err(ContainerFault::WrongState);
        }
        self.objects.remove(i);
        Ok(Answer::quiet(alloc))
    }
}
