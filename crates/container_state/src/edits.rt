//! Running objects that are asked for an edit.

ghost use Rattle.std.specs.Prelude.{◌≡◌, ◌≤◌, IfErr, IfOk, IfSome, Ok, OnErr, length, slice_get};
ghost use Rattle.container_model.specs.Commands.{edit, edit_linked};
ghost use Rattle.container_model.specs.Record.{Refuses, counts_none};
ghost use Rattle.container_model.specs.Numbered.{IsObjectAt};
ghost use Rattle.container_model.specs.Room.{IsSound};

use crate::state::State;
use container_model::answer::Answer;
use container_model::fault::ContainerFault;
use container_objects::edits::edit_one;
use std::alloc::Global;
use tree_values::bytes::Bytes;

impl State {
    // A running object is asked for an edit.
    pub(crate) fn edit(
        &mut self,
        alloc: Global,
        object: u32,
        bytes: Bytes,
    ) -> Result<Answer, ContainerFault>
        requires { IsSound self.old }
        ensures taken { IfOk result (λ a. edit self.old object bytes ≡ Ok (counts_none self.new a)) }
        ensures few { IfOk result (λ a. length a.actions ≤ 1) }
        ensures refused { IfErr result (Refuses (edit self.old object bytes)) }
        ensures kept { OnErr result (self.new ≡ self.old) }
    {
        match self.place_ready(object) {
            Ok((i, _)) => self.edit_object(alloc, i, bytes),
            Err(fault) => Err(fault),
        }
    }

    // The object that stands there is asked for an edit.
    fn edit_object(
        &mut self,
        alloc: Global,
        i: usize,
        bytes: Bytes,
    ) -> Result<Answer, ContainerFault>
        requires sound { IsSound self.old }
        requires place { IsObjectAt self.old.objects i }
        ensures taken { IfOk result (λ a. IfSome (slice_get self.old.objects i)
            (λ o. edit_linked self.old o bytes o.link ≡ Ok (counts_none self.new a))) }
        ensures few { IfOk result (λ a. length a.actions ≤ 1) }
        ensures refused { IfErr result (λ e. IfSome (slice_get self.old.objects i)
            (λ o. Refuses (edit_linked self.old o bytes o.link) e)) }
        ensures kept { OnErr result (self.new ≡ self.old) }
    {
        let actions = match edit_one(alloc, self.numbers, &mut self.objects.list[i], bytes) {
            Ok(actions) => actions,
            Err(fault) => return Err(fault),
        };
        Ok(Answer::acts(alloc, actions))
    }
}
