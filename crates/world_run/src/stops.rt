//! A stop: the present run is over, and the next one begins.

ghost use Rattle.std.specs.Prelude.{◌≡◌, ◌≤◌, ◌<◌, ◌+◌, ◌++◌, ◌||◌, IfErr, IfOk, OnErr, OnOk, is_some, length};
ghost use Rattle.std.specs.Prelude.{vec_capacity, vec_len};
ghost use Rattle.world_model.specs.declared.moment.Moment.TheVariants as moment;
ghost use Rattle.message_values.specs.Found.{nth};
ghost use Rattle.world_run.specs.Changes.{Ends, IsMore, IsPast, LeavesPast, LosesServers, Moves, Stays};
ghost use Rattle.world_run.specs.Names.{name_left, or_else};

use crate::past::Past;
use crate::runs::Runs;
use container_core::container::{ContainerCore, Limits};
use object_core::embedded::Embedded;
use std::alloc::{AllocError, Global};
use std::mem::replace;
use tree_values::bytes::Bytes;
use world_host::commits::name_after;
use world_host::host::{add, add_all};
use world_host::stops::{Left, is_among};
use world_model::event::Stop;
use world_state::state::State;

// A run that raised no session started no server, and leaves nothing.
fn add_past(past: &mut Vec<Past>, run: Past)
    requires { vec_len past.old < vec_capacity past.old }
    ensures { IsMore (λ s. (⟦<dyn Embedded as Embedded>⟧ s.boxed.vtable).content s.boxed.value) past.old.items run
        past.new.items }
{
    if run.session != 0 {
        add(past, run);
    }
}

// What is left of a run: its servers, and what the host has left.
fn past_of(alloc: Global, state: &mut State, left: Left) -> (Past, Vec<Bytes>)
    ensures past { IsPast (λ s. (⟦<dyn Embedded as Embedded>⟧ s.boxed.vtable).content s.boxed.value) state.old left
        result.0 }
    ensures names { result.1 ≡ left.names }
    ensures state { LosesServers (λ s. (⟦<dyn Embedded as Embedded>⟧ s.boxed.vtable).content s.boxed.value)
        state.old state.new }
{
    let Left {
        session,
        owners,
        taken,
        container_done,
        server_done,
        counted,
        hostile,
        names,
    } = left;
    let instances = replace(&mut state.instances, Vec::new(alloc));
    let past = Past {
        session,
        instances,
        owners,
        taken,
        container_done,
        server_done,
        counted,
        hostile,
    };
    (past, names)
}

impl Runs {
    // The name of the session document once the container has stopped, where frame 1 bears it now.
    fn name_left(&self, alloc: Global, frames: &[u32]) -> Result<Option<Bytes>, AllocError>
        ensures { IfOk result (λ name. name ≡ name_left frames.now (nth self.now.state.host.core.frames 1)
            self.now.has_document) }
    {
        let Some(frame) = self.state.host.core.frame(1) else {
            return Ok(None);
        };
        if is_among(frames, 1) {
            return Ok(Some(name_after(alloc, frame)?));
        }
        if self.has_document {
            return Ok(Some(frame.name.copy(alloc)?));
        }
        Ok(None)
    }

    // Room for what a stop leaves. Gives the name of the session document, where frame 1 bears it.
    fn room(&mut self, alloc: Global, frames: &[u32]) -> Result<Option<Bytes>, AllocError>
        ensures name { IfOk result (λ name. name ≡ name_left frames.now (nth self.new.state.host.core.frames 1)
            self.new.has_document) }
        ensures past_room { OnOk result (vec_len self.new.past < vec_capacity self.new.past) }
        ensures kept_room { OnOk result (vec_len self.new.kept + length self.new.state.host.core.frames
            ≤ vec_capacity self.new.kept) }
        ensures state { self.new.state ≡ self.old.state }
        ensures past { self.new.past.items ≡ self.old.past.items }
        ensures has_document { self.new.has_document ≡ self.old.has_document }
        ensures document { self.new.document ≡ self.old.document }
        ensures kept { self.new.kept.items ≡ self.old.kept.items }
    {
        self.past.reserve(1)?;
        self.kept.reserve(self.state.host.core.all_frames().len())?;
        self.name_left(alloc, frames)
    }

    // The name of the session document, if it is told.
    fn set_document(&mut self, name: Option<Bytes>)
        ensures state { self.new.state ≡ self.old.state }
        ensures past { self.new.past ≡ self.old.past }
        ensures has_document { self.new.has_document ≡ (is_some name || self.old.has_document) }
        ensures document { self.new.document ≡ or_else name self.old.document }
        ensures kept { self.new.kept ≡ self.old.kept }
    {
        match name {
            Some(name) => {
                self.has_document = true;
                self.document = name;
            }
            None => {}
        }
    }

    // The present run is over: what is left of it stands behind what is left of those before it.
    fn leave(&mut self, alloc: Global, left: Left, name: Option<Bytes>)
        requires past_room { vec_len self.old.past < vec_capacity self.old.past }
        requires kept_room { vec_len self.old.kept + vec_len left.names ≤ vec_capacity self.old.kept }
        ensures state { LosesServers (λ s. (⟦<dyn Embedded as Embedded>⟧ s.boxed.vtable).content s.boxed.value)
            self.old.state self.new.state }
        ensures past { LeavesPast (λ s. (⟦<dyn Embedded as Embedded>⟧ s.boxed.vtable).content s.boxed.value)
            self.old left self.new }
        ensures has_document { self.new.has_document ≡ (is_some name || self.old.has_document) }
        ensures document { self.new.document ≡ or_else name self.old.document }
        ensures kept { self.new.kept.items ≡ self.old.kept.items ++ left.names.items }
    {
        let (run, names) = past_of(alloc, &mut self.state, left);
        add_past(&mut self.past, run);
        add_all(&mut self.kept, names);
        self.set_document(name);
    }

    // The container stops and starts again. Of these frames the disk has kept the commit that is asked or in doubt.
    //
    // Refused: `NotEnabled` where such a commit is neither asked nor in doubt, or has no image; then `EventLimit`, then
    // `NoMemory`. Then nothing changes.
    pub(crate) fn stop(&mut self, alloc: Global, frames: &[u32]) -> Result<(), Stop>
        ensures taken { OnOk result
            (Moves (λ s. (⟦<dyn Embedded as Embedded>⟧ s.boxed.vtable).content s.boxed.value) self.old
            (moment.Stop frames.now) self.new) }
        ensures refused { IfErr result
            (Ends (λ s. (⟦<dyn Embedded as Embedded>⟧ s.boxed.vtable).content s.boxed.value) self.old
            (moment.Stop frames.now)) }
        ensures kept { OnErr result
            (Stays (λ s. (⟦<dyn Embedded as Embedded>⟧ s.boxed.vtable).content s.boxed.value) self.old self.new) }
    {
        let name = self.room(alloc, frames);
        self.state.host.core.steady();
        let limits = Limits {
            numbers: self.state.host.core.numbers(),
        };
        let core = ContainerCore::new(alloc, limits);
        match self.state.host.stop(alloc, core, frames, name.is_ok()) {
            Ok(left) => match name {
                Ok(name) => {
                    self.leave(alloc, left, name);
                    Ok(())
                }
                Err(_) => unreachable!(),
            },
            Err(stop) => Err(stop),
        }
    }
}
