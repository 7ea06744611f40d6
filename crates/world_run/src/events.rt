//! Events of the present run.

ghost use Rattle.std.specs.Prelude.{◌≡◌, ◌≢◌, IfErr, OnErr, OnOk};
ghost use Rattle.world_model.specs.Story.{is_it, may_begin, may_command, may_make, may_open, session_of};
ghost use Rattle.world_host.specs.View.{bare};
ghost use Rattle.world_run.specs.Changes.{EndsHere, MovesHere, Stays};
ghost use Rattle.world_run.specs.Told.{told};

use crate::runs::Runs;
use container_model::command::Command;
use object_core::embedded::Embedded;
use std::alloc::Global;
use world_model::event::{Event, Stop};

impl Runs {
    // Whether a frame may be made so early in a run: where there is a session document, it is opened first.
    fn may_make(&self) -> bool
        ensures { result ≡ may_make (told (λ s. (⟦<dyn Embedded as Embedded>⟧ s.boxed.vtable).content s.boxed.value)
            self.now) }
    {
        match self.state.host.core.frame(1) {
            Some(_) => true,
            None => match self.document() {
                Some(_) => false,
                None => true,
            },
        }
    }

    // Whether this file may be opened so early.
    fn may_open(&self, name: &[u8]) -> bool
        ensures { result ≡ may_open (told (λ s. (⟦<dyn Embedded as Embedded>⟧ s.boxed.vtable).content s.boxed.value)
            self.now) name.now }
    {
        match self.state.host.core.frame(1) {
            Some(_) => true,
            None => match self.document() {
                Some(document) => document == name,
                None => true,
            },
        }
    }

    // Whether this command may come so early.
    fn may_command(&self, command: &Command) -> bool
        ensures { result ≡ may_command
            (told (λ s. (⟦<dyn Embedded as Embedded>⟧ s.boxed.vtable).content s.boxed.value) self.now) command.now }
    {
        match command {
            Command::New(_, _, _) => self.may_make(),
            Command::Insert(_, _, _)
            | Command::Session
            | Command::Start
            | Command::Run(_, _)
            | Command::Edit(_, _)
            | Command::Save(_)
            | Command::SaveAs(_, _)
            | Command::Delete(_)
            | Command::Kill(_)
            | Command::Close(_, _)
            | Command::Verb(_, _) => true,
        }
    }

    // Whether this event may happen so early.
    fn may_begin(&self, event: &Event) -> bool
        ensures { result ≡ may_begin
            (told (λ s. (⟦<dyn Embedded as Embedded>⟧ s.boxed.vtable).content s.boxed.value) self.now) event.now }
    {
        match event {
            Event::Command(command) => self.may_command(command),
            Event::Open(name, _, _) => self.may_open(name.as_slice()),
            Event::Deliver(_)
            | Event::Forge(_, _)
            | Event::Crash(_, _)
            | Event::Reap(_)
            | Event::Done(_)
            | Event::Fail(_)
            | Event::Resolve(_, _)
            | Event::Scribble(_, _, _)
            | Event::Ask(_, _, _) => true,
        }
    }

    // An event of the present run.
    pub(crate) fn present(&mut self, alloc: Global, event: &Event) -> Result<(), Stop>
        requires { session_of (bare self.old.state.host) event.now ≡ self.old.state.host.core.session }
        ensures taken { OnOk result
            (MovesHere (λ s. (⟦<dyn Embedded as Embedded>⟧ s.boxed.vtable).content s.boxed.value) self.old event.now
            self.new) }
        ensures refused { IfErr result
            (EndsHere (λ s. (⟦<dyn Embedded as Embedded>⟧ s.boxed.vtable).content s.boxed.value) self.old
            event.now) }
        ensures kept { OnErr result
            (Stays (λ s. (⟦<dyn Embedded as Embedded>⟧ s.boxed.vtable).content s.boxed.value) self.old self.new) }
    {
        if !self.may_begin(event) {
            return Err(Stop::NotEnabled);
        }
        match self.state.step(alloc, event) {
            Ok(()) => {
                self.follow(event);
                Ok(())
            }
            Err(stop) => Err(stop),
        }
    }
}
