//! New servers.

ghost use Rattle.std.specs.Prelude.{◌≡◌, ◌≤◌, ◌∷◌, [], IfErr, IfOk, Ok, OnErr, Some, length};
ghost use Rattle.container_model.specs.Commands.{start};
ghost use Rattle.container_model.specs.Record.{Refuses, counts_none, quiet_answer};
ghost use Rattle.container_model.specs.declared.answer.Action.TheVariants.{Start};

use crate::state::State;
use container_model::answer::{Action, Answer};
use container_model::fault::ContainerFault;
use std::alloc::{AllocError, Global};

// How many servers may be there that aren't reaped.
const MOST_SERVERS: usize = 8;

// The answer that a server is to be started.
fn started(alloc: Global, inc: u32) -> Result<Answer, AllocError>
    ensures { IfOk result (λ a. a ≡ record quiet_answer { server = Some inc; actions = Start inc ∷ [] }) }
{
    let mut answer = Answer::quiet(alloc);
    answer.server = Some(inc);
    answer.actions.push(Action::Start(inc))?;
    Ok(answer)
}

impl State {
    // A new server, where the container has a session.
    pub(crate) fn start(&mut self, alloc: Global) -> Result<Answer, ContainerFault>
        ensures taken { IfOk result (λ a. start self.old ≡ Ok (counts_none self.new a)) }
        ensures few { IfOk result (λ a. length a.actions ≤ 1) }
        ensures refused { IfErr result (Refuses (start self.old)) }
        ensures kept { OnErr result (self.new ≡ self.old) }
    {
        if self.servers.count_alive() >= MOST_SERVERS {
            return Err(ContainerFault::Full);
        }
        let count = self.servers.len();
        if count >= self.numbers as usize {
            return Err(ContainerFault::NumbersSpent);
        }
        if self.session == 0 {
            return Err(ContainerFault::WrongState);
        }
        let inc = count as u32 + 1;
        let Ok(answer) = started(alloc, inc) else {
            return Err(ContainerFault::NoMemory);
        };
        if self.servers.start().is_err() {
            return Err(ContainerFault::NoMemory);
        }
        Ok(answer)
    }
}
