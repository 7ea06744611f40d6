//! Events at servers of earlier runs.

ghost use Rattle.std.specs.Prelude.{◌≡◌, ◌≢◌, ◌<◌, IfErr, OnErr, OnOk, length};
ghost use Rattle.world_model.specs.Story.{session_of};
ghost use Rattle.world_host.specs.View.{bare};
ghost use Rattle.world_run.specs.Changes.{EndsThere, GoesOn, MakesPlace, MovesThere, RefusesOn, StateStays, Stays};
ghost use Rattle.world_run.specs.Changes.{Swaps, TakesPlace};

use crate::past::{Past, place_of};
use crate::runs::Runs;
use object_core::embedded::Embedded;
use std::alloc::Global;
use std::mem::swap;
use world_model::event::{Event, Stop};
use world_state::state::State;

// Puts the servers and the logs of one run into the place of another's.
fn exchange(state: &mut State, past: &mut Past)
    ensures state { TakesPlace (λ s. (⟦<dyn Embedded as Embedded>⟧ s.boxed.vtable).content s.boxed.value) state.old
        past.old state.new }
    ensures past { MakesPlace (λ s. (⟦<dyn Embedded as Embedded>⟧ s.boxed.vtable).content s.boxed.value) state.old
        past.old past.new }
{
    swap(&mut state.instances, &mut past.instances);
    swap(&mut state.host.owners, &mut past.owners);
    swap(&mut state.host.taken, &mut past.taken);
    swap(&mut state.host.container_done, &mut past.container_done);
    swap(&mut state.host.server_done, &mut past.server_done);
    swap(&mut state.host.counted, &mut past.counted);
    swap(&mut state.host.hostile, &mut past.hostile);
}

// An event at a server of these, which are of an earlier run.
fn go_on(state: &mut State, alloc: Global, event: &Event) -> Result<(), Stop>
    requires { session_of (bare state.old.host) event.now ≢ state.old.host.core.session }
    ensures taken { OnOk result (GoesOn (λ s. (⟦<dyn Embedded as Embedded>⟧ s.boxed.vtable).content s.boxed.value)
        state.old event.now state.new) }
    ensures refused { IfErr result
        (RefusesOn (λ s. (⟦<dyn Embedded as Embedded>⟧ s.boxed.vtable).content s.boxed.value) state.old event.now) }
    ensures kept { OnErr result
        (StateStays (λ s. (⟦<dyn Embedded as Embedded>⟧ s.boxed.vtable).content s.boxed.value) state.old
        state.new) }
{
    match event {
        // It isn't of the present session, so it is a call.
        Event::Deliver(p) => state.deliver(alloc, *p),
        Event::Crash(_, inc) => state.crash_here(alloc, *inc),
        Event::Scribble(_, inc, act) => state.scribble_here(alloc, *inc, *act),
        Event::Ask(_, inc, act) => state.ask_here(alloc, *inc, *act),
        Event::Command(_)
        | Event::Forge(_, _)
        | Event::Reap(_)
        | Event::Done(_)
        | Event::Fail(_)
        | Event::Resolve(_, _)
        | Event::Open(_, _, _) => Err(Stop::NotEnabled),
    }
}

impl Runs {
    // The earlier run that stands at i in the place of the present one, and the other way round.
    fn swap(&mut self, i: usize)
        requires { i < length self.old.past.items }
        ensures { Swaps (λ s. (⟦<dyn Embedded as Embedded>⟧ s.boxed.vtable).content s.boxed.value) self.old i self.new }
    {
        exchange(&mut self.state, &mut self.past[i]);
    }

    // An event at a server of the first run of this session.
    pub(crate) fn earlier(&mut self, alloc: Global, session: u32, event: &Event) -> Result<(), Stop>
        requires session { session ≡ session_of (bare self.old.state.host) event.now }
        requires earlier { session ≢ self.old.state.host.core.session }
        ensures taken { OnOk result
            (MovesThere (λ s. (⟦<dyn Embedded as Embedded>⟧ s.boxed.vtable).content s.boxed.value) self.old session
            event.now self.new) }
        ensures refused { IfErr result
            (EndsThere (λ s. (⟦<dyn Embedded as Embedded>⟧ s.boxed.vtable).content s.boxed.value) self.old session
            event.now) }
        ensures kept { OnErr result
            (Stays (λ s. (⟦<dyn Embedded as Embedded>⟧ s.boxed.vtable).content s.boxed.value) self.old self.new) }
    {
        let Some(i) = place_of(&self.past, session) else {
            return Err(Stop::NotEnabled);
        };
        self.swap(i);
        let outcome = go_on(&mut self.state, alloc, event);
        self.swap(i);
        outcome
    }
}
