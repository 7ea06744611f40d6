//! The present run, those before it, and what happens in them.

ghost use Rattle.std.specs.Prelude.{◌≡◌, ◌≤◌, IfErr, MatchOption, OnErr, OnOk, Some, length, map, option_copied};
ghost use Rattle.std.specs.Prelude.{slice_get, take, []};
ghost use Rattle.world_model.specs.Story.{empty_story};
ghost use Rattle.world_model.specs.declared.moment.Moment.{Moment};
ghost use Rattle.world_model.specs.declared.moment.Moment.TheVariants as moment;
ghost use Rattle.world_run.specs.Changes.{Ends, Moves, MovesOn, Stays};
ghost use Rattle.world_run.specs.Told.{told};
ghost use Rattle.world_state.specs.View.{seen_stocked};

use crate::past::Past;
use crate::sessions::session_of;
use container_core::container::Limits;
use object_core::embedded::Embedded;
use std::alloc::Global;
use tree_values::bytes::Bytes;
use world_model::event::{Event, Stop};
use world_model::moment::Moment;
use world_state::state::State;
use world_state::stock::Stock;

/// The present run, and what is left of those before it. A world holds them, with what stays true of them.
#[derive(Drop)]
pub struct Runs {
    /// The present run. With it are the files, the stock, what was answered and all messages that were ever sent.
    pub(crate) state: State,
    /// What is left of the runs before it that raised a session, the first of them first.
    pub(crate) past: Vec<Past>,
    /// Whether there is a session document.
    pub(crate) has_document: bool,
    /// Its name, where there is one, and no frame 1, which bears it.
    pub(crate) document: Bytes,
    /// The names of the files that a stop kept and nobody has counted since, the last of them last.
    pub(crate) kept: Vec<Bytes>,
}

impl Runs {
    /// A story in which nothing has happened.
    pub(crate) fn new(alloc: Global, limits: Limits, stock: Stock) -> Runs
        requires { limits.numbers ≤ 1000000 }
        ensures { told (λ s. (⟦<dyn Embedded as Embedded>⟧ s.boxed.vtable).content s.boxed.value) result
            ≡ empty_story limits.numbers
            (map (seen_stocked (λ s. (⟦<dyn Embedded as Embedded>⟧ s.boxed.vtable).content s.boxed.value))
            stock.boxes.items) }
    {
        Runs {
            state: State::new(alloc, limits, stock),
            past: Vec::new(alloc),
            has_document: false,
            document: Bytes::new(alloc),
            kept: Vec::new(alloc),
        }
    }

    /// The name of the session document, once there is one: frame 1 bears it.
    pub(crate) fn document(&self) -> Option<&[u8]>
        ensures { option_copied result
            ≡ (told (λ s. (⟦<dyn Embedded as Embedded>⟧ s.boxed.vtable).content s.boxed.value) self.now).document }
    {
        if !self.has_document {
            return None;
        }
        match self.state.host.core.frame(1) {
            Some(frame) => Some(frame.name.as_slice()),
            None => Some(self.document.as_slice()),
        }
    }

    // An event of the present run, or at a server of an earlier one.
    fn event(&mut self, alloc: Global, event: &Event) -> Result<(), Stop>
        ensures taken { OnOk result
            (Moves (λ s. (⟦<dyn Embedded as Embedded>⟧ s.boxed.vtable).content s.boxed.value) self.old
            (moment.Event event.now) self.new) }
        ensures refused { IfErr result
            (Ends (λ s. (⟦<dyn Embedded as Embedded>⟧ s.boxed.vtable).content s.boxed.value) self.old
            (moment.Event event.now)) }
        ensures kept { OnErr result
            (Stays (λ s. (⟦<dyn Embedded as Embedded>⟧ s.boxed.vtable).content s.boxed.value) self.old self.new) }
    {
        let session = session_of(&self.state.host, event);
        if session == self.state.host.core.session() {
            self.present(alloc, event)
        } else {
            self.earlier(alloc, session, event)
        }
    }

    // What happens, happens.
    fn step(&mut self, alloc: Global, moment: &Moment) -> Result<(), Stop>
        ensures taken { OnOk result
            (Moves (λ s. (⟦<dyn Embedded as Embedded>⟧ s.boxed.vtable).content s.boxed.value) self.old moment.now
            self.new) }
        ensures refused { IfErr result
            (Ends (λ s. (⟦<dyn Embedded as Embedded>⟧ s.boxed.vtable).content s.boxed.value) self.old moment.now) }
        ensures kept { OnErr result
            (Stays (λ s. (⟦<dyn Embedded as Embedded>⟧ s.boxed.vtable).content s.boxed.value) self.old self.new) }
    {
        match moment {
            Moment::Event(event) => self.event(alloc, event),
            Moment::Stop(frames) => self.stop(alloc, frames.as_slice()),
        }
    }

    /// Takes moments in order, up to the first that stops the story: gives how many were taken, and why it stopped.
    pub(crate) fn run(&mut self, alloc: Global, moments: &[Moment]) -> (usize, Option<Stop>)
        ensures taken { MovesOn (λ s. (⟦<dyn Embedded as Embedded>⟧ s.boxed.vtable).content s.boxed.value) self.old
            (take result.0 moments.now) self.new }
        ensures within { result.0 ≤ length moments.now }
        ensures stop { MatchOption result.1 (result.0 ≡ length moments.now)
            (λ stop. (m : Moment) × (slice_get moments.now result.0 ≡ Some m)
            × Ends (λ s. (⟦<dyn Embedded as Embedded>⟧ s.boxed.vtable).content s.boxed.value) self.new m stop) }
    {
        for (i, moment) in moments.iter().enumerate() {
            match self.step(alloc, moment) {
                Ok(()) => {}
                Err(stop) => return (i, Some(stop)),
            }
        }
        (moments.len(), None)
    }
}
