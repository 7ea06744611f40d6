//! Servers that are ended.

ghost use Rattle.std.specs.Prelude.{◌≡◌, ◌≤◌, IfErr, IfOk, Ok, OnErr, length};
ghost use Rattle.container_model.specs.Commands.{kill};
ghost use Rattle.container_model.specs.Record.{Refuses, counts_none};

use crate::state::State;
use container_model::answer::{Action, Answer};
use container_model::fault::ContainerFault;
use std::alloc::Global;

impl State {
    // A server is to be ended.
    pub(crate) fn kill(&mut self, alloc: Global, inc: u32) -> Result<Answer, ContainerFault>
        ensures taken { IfOk result (λ a. kill self.old inc ≡ Ok (counts_none self.new a)) }
        ensures few { IfOk result (λ a. length a.actions ≤ 1) }
        ensures refused { IfErr result (Refuses (kill self.old inc)) }
        ensures kept { OnErr result (self.new ≡ self.old) }
    {
        if !self.servers.is_alive(inc) {
            return Err(ContainerFault::NoSuch);
        }
        let mut answer = Answer::quiet(alloc);
        if answer.actions.push(Action::End(inc)).is_err() {
            return Err(ContainerFault::NoMemory);
        }
        Ok(answer)
    }
}
