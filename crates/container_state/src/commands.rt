//! What a container does with a command of a user.

ghost use Rattle.std.specs.Prelude.{◌+◌, ◌≡◌, ◌≤◌, IfErr, IfOk, Ok, OnErr, length};
ghost use Rattle.container_queues.specs.Steady.{Steady};
ghost use Rattle.container_model.specs.Commands.{on_command};
ghost use Rattle.container_model.specs.Record.{Refuses, counts_none};
ghost use Rattle.container_model.specs.Room.{IsSound};

use crate::state::State;
use container_model::answer::Answer;
use container_model::command::Command;
use container_model::fault::ContainerFault;
use std::alloc::Global;

impl State {
    /// A command of a user. The answer has what was made, what is sent and which files are to be committed.
    ///
    /// Refused: as the definition of the step says, by command; then `NoMemory`. A refusal changes nothing.
    pub fn command(&mut self, alloc: Global, command: Command) -> Result<Answer, ContainerFault>
        requires steady { Steady self.old }
        requires sound { IsSound self.old }
        ensures taken { IfOk result (λ a. on_command self.old command ≡ Ok (counts_none self.new a)) }
        ensures few { IfOk result (λ a. length a.actions ≤ length self.old.objects + length self.old.frames + 1) }
        ensures refused { IfErr result (Refuses (on_command self.old command)) }
        ensures kept { OnErr result (self.new ≡ self.old) }
    {
        match command {
            Command::New(name, w, h) => self.new_frame(alloc, name, w, h),
            Command::Insert(frame, kind, area) => self.insert(alloc, frame, kind, area),
            Command::Session => self.begin_session(alloc),
            Command::Start => self.start(alloc),
            Command::Run(object, inc) => self.run(alloc, object, inc),
            Command::Edit(object, bytes) => self.edit(alloc, object, bytes),
            Command::Save(frame) => self.save(alloc, frame),
            Command::SaveAs(frame, name) => self.save_as(alloc, frame, name),
            Command::Delete(object) => self.delete(alloc, object),
            Command::Kill(inc) => self.kill(alloc, inc),
            Command::Close(object, option) => self.close(alloc, object, option),
            Command::Verb(object, number) => self.verb(alloc, object, number),
        }
    }
}
