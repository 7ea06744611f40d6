//! Objects that ask to be relieved of their frames.

ghost use Rattle.std.specs.Prelude.{◌≡◌, ◌≤◌, IfErr, IfOk, Ok, OnErr, length};
ghost use Rattle.container_model.specs.Messages.{ask_found, on_ask};
ghost use Rattle.container_model.specs.Record.{Refuses, counts_none, is_linked};
ghost use Rattle.container_model.specs.Room.{IsSound};
ghost use Rattle.message_values.specs.Found.{find, IsPlace};

use crate::state::State;
use container_checks::lookups::place_linked;
use container_grants::grants::{ask_number, is_held_by};
use container_model::answer::Answer;
use container_model::fault::ContainerFault;
use message_values::operation::Operation;
use std::alloc::Global;

impl State {
    // An object asks, by its activation and its grant, to be relieved of its frame.
    pub(crate) fn on_ask(
        &mut self,
        alloc: Global,
        inc: u32,
        act: u32,
        g: u32,
    ) -> Result<Answer, ContainerFault>
        requires { IsSound self.old }
        ensures taken { IfOk result (λ a. on_ask self.old inc act g ≡ Ok (counts_none self.new a)) }
        ensures few { IfOk result (λ a. length a.actions ≤ 1) }
        ensures refused { IfErr result (Refuses (on_ask self.old inc act g)) }
        ensures kept { OnErr result (self.new ≡ self.old) }
    {
        if !self.servers.is_alive(inc) {
            return Err(ContainerFault::Stale);
        }
        let Some(i) = place_linked(&self.objects.list, inc, act) else {
            return Err(ContainerFault::Stale);
        };
        self.ask_at(alloc, i, inc, act, g)
    }

    // The same of the object that stands there.
    fn ask_at(
        &mut self,
        alloc: Global,
        i: usize,
        inc: u32,
        act: u32,
        g: u32,
    ) -> Result<Answer, ContainerFault>
        requires sound { IsSound self.old }
        requires place { IsPlace (is_linked inc act) self.old.objects i }
        ensures taken { IfOk result (λ a. ask_found self.old act g (find (is_linked inc act) self.old.objects)
            ≡ Ok (counts_none self.new a)) }
        ensures few { IfOk result (λ a. length a.actions ≤ 1) }
        ensures refused { IfErr result
            (Refuses (ask_found self.old act g (find (is_linked inc act) self.old.objects))) }
        ensures kept { OnErr result (self.new ≡ self.old) }
    {
        let f = self.objects.list[i].frame;
        let Some(at) = self.frames.place(f) else {
            return Err(ContainerFault::Stale);
        };
        let state = self.frames[at].ui.state();
        if !is_held_by(&state, act, g) {
            return Err(ContainerFault::Stale);
        }
        let number = self.objects.list[i].number;
        let Ok(actions) = ask_number(alloc, &mut self.objects, number, Operation::UiDeactivate)
        else {
            return Err(ContainerFault::NoMemory);
        };
        let _ = self.frames[at].ui.ask(number, act, g);
        Ok(Answer::acts(alloc, actions))
    }
}
