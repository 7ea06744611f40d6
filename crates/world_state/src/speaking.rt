//! What servers send of their own accord.

ghost use Rattle.std.specs.Prelude.{◌≡◌, [], IfErr, OnErr, OnOk, Ok, slice_get};
ghost use Rattle.container_model.specs.Numbered.{IsNth};
ghost use Rattle.message_values.specs.Found.{nth};
ghost use Rattle.world_state.specs.Plans.{asking, scribbling};
ghost use Rattle.world_state.specs.View.{seen};
ghost use Rattle.world_model.specs.World.{StopsFor, ask, limited, scribble, step, no_choice};
ghost use Rattle.world_model.specs.declared.event.Event.TheVariants as event;

use crate::state::State;
use object_core::embedded::Embedded;
use server_model::fault::ServerFault;
use std::alloc::Global;
use world_model::event::Stop;
use world_model::life::Life;

impl State {
    // The activation of a server that stands at i writes.
    fn scribble_at(&mut self, alloc: Global, i: usize, inc: u32, act: u32) -> Result<(), Stop>
        requires { IsNth inc self.old.instances.items i }
        ensures taken { OnOk result (limited (seen (λ s. content s.boxed) self.old)
            (scribbling (seen (λ s. content s.boxed) self.old) inc act
            (slice_get (seen (λ s. content s.boxed) self.old).instances i))
            ≡ Ok (seen (λ s. content s.boxed) self.new)) }
        ensures refused { IfErr result
            (StopsFor (limited (seen (λ s. content s.boxed) self.old)
            (scribbling (seen (λ s. content s.boxed) self.old) inc act
            (slice_get (seen (λ s. content s.boxed) self.old).instances i)))) }
        ensures kept { OnErr result (seen (λ s. content s.boxed) self.new ≡ seen (λ s. content s.boxed) self.old) }
    {
        self.host.open()?;
        let Ok(room) = self.host.reply_room(alloc) else {
            return Err(Stop::NoMemory);
        };
        let view = self.view(i, act);
        match self.instances[i].core.scribble(alloc, act) {
            Ok(message) => {
                self.host.replied(alloc, inc, view, message, None, room);
                Ok(())
            }
            Err(fault) => match fault {
                ServerFault::NoMemory => Err(Stop::NoMemory),
                fault => {
                    self.host.dropped(fault);
                    Ok(())
                }
            },
        }
    }

    /// An activation of a server of these writes.
    ///
    /// Refused: `NotEnabled` where the server doesn't run; then `EventLimit`, then `NoMemory`. Then nothing changes.
    pub fn scribble_here(&mut self, alloc: Global, inc: u32, act: u32) -> Result<(), Stop>
        ensures taken { OnOk result (limited (seen (λ s. content s.boxed) self.old)
            (scribble (seen (λ s. content s.boxed) self.old) inc act
            (nth (seen (λ s. content s.boxed) self.old).instances inc))
            ≡ Ok (seen (λ s. content s.boxed) self.new)) }
        ensures refused { IfErr result
            (StopsFor (limited (seen (λ s. content s.boxed) self.old)
            (scribble (seen (λ s. content s.boxed) self.old) inc act
            (nth (seen (λ s. content s.boxed) self.old).instances inc)))) }
        ensures kept { OnErr result (seen (λ s. content s.boxed) self.new ≡ seen (λ s. content s.boxed) self.old) }
    {
        let Some((i, life)) = self.life(inc) else {
            return Err(Stop::NotEnabled);
        };
        match life {
            Life::Running => {}
            Life::Ended | Life::Reaped => return Err(Stop::NotEnabled),
        }
        self.scribble_at(alloc, i, inc, act)
    }

    // An activation of a server writes.
    pub(crate) fn scribble(
        &mut self,
        alloc: Global,
        session: u32,
        inc: u32,
        act: u32,
    ) -> Result<(), Stop>
        ensures taken { OnOk result (step (seen (λ s. content s.boxed) self.old) no_choice
            (event.Scribble session inc act) ≡ Ok (seen (λ s. content s.boxed) self.new)) }
        ensures refused { IfErr result
            (StopsFor (step (seen (λ s. content s.boxed) self.old) no_choice (event.Scribble session inc act))) }
        ensures kept { OnErr result (seen (λ s. content s.boxed) self.new ≡ seen (λ s. content s.boxed) self.old) }
    {
        if !self.is_in(session) {
            return Err(Stop::NotEnabled);
        }
        self.scribble_here(alloc, inc, act)
    }

    // The activation of a server that stands at i asks to be relieved of its frame.
    fn ask_at(&mut self, alloc: Global, i: usize, inc: u32, act: u32) -> Result<(), Stop>
        requires { IsNth inc self.old.instances.items i }
        ensures taken { OnOk result (limited (seen (λ s. content s.boxed) self.old)
            (asking (seen (λ s. content s.boxed) self.old) inc act
            (slice_get (seen (λ s. content s.boxed) self.old).instances i))
            ≡ Ok (seen (λ s. content s.boxed) self.new)) }
        ensures refused { IfErr result
            (StopsFor (limited (seen (λ s. content s.boxed) self.old)
            (asking (seen (λ s. content s.boxed) self.old) inc act
            (slice_get (seen (λ s. content s.boxed) self.old).instances i)))) }
        ensures kept { OnErr result (seen (λ s. content s.boxed) self.new ≡ seen (λ s. content s.boxed) self.old) }
    {
        self.host.open()?;
        let Ok(room) = self.host.reply_room(alloc) else {
            return Err(Stop::NoMemory);
        };
        let view = self.view(i, act);
        match self.instances[i].core.ask_deactivate(act) {
            Ok(asked) => {
                self.host.replied(alloc, inc, view, asked, None, room);
                Ok(())
            }
            Err(fault) => {
                self.host.dropped(fault);
                Ok(())
            }
        }
    }

    /// An activation of a server of these asks to be relieved of its frame.
    ///
    /// Refused: `NotEnabled` where the server doesn't run; then `EventLimit`, then `NoMemory`. Then nothing changes.
    pub fn ask_here(&mut self, alloc: Global, inc: u32, act: u32) -> Result<(), Stop>
        ensures taken { OnOk result (limited (seen (λ s. content s.boxed) self.old)
            (ask (seen (λ s. content s.boxed) self.old) inc act
            (nth (seen (λ s. content s.boxed) self.old).instances inc))
            ≡ Ok (seen (λ s. content s.boxed) self.new)) }
        ensures refused { IfErr result
            (StopsFor (limited (seen (λ s. content s.boxed) self.old)
            (ask (seen (λ s. content s.boxed) self.old) inc act
            (nth (seen (λ s. content s.boxed) self.old).instances inc)))) }
        ensures kept { OnErr result (seen (λ s. content s.boxed) self.new ≡ seen (λ s. content s.boxed) self.old) }
    {
        let Some((i, life)) = self.life(inc) else {
            return Err(Stop::NotEnabled);
        };
        match life {
            Life::Running => {}
            Life::Ended | Life::Reaped => return Err(Stop::NotEnabled),
        }
        self.ask_at(alloc, i, inc, act)
    }

    // An activation of a server asks to be relieved of its frame.
    pub(crate) fn ask(
        &mut self,
        alloc: Global,
        session: u32,
        inc: u32,
        act: u32,
    ) -> Result<(), Stop>
        ensures taken { OnOk result (step (seen (λ s. content s.boxed) self.old) no_choice
            (event.Ask session inc act) ≡ Ok (seen (λ s. content s.boxed) self.new)) }
        ensures refused { IfErr result
            (StopsFor (step (seen (λ s. content s.boxed) self.old) no_choice (event.Ask session inc act))) }
        ensures kept { OnErr result (seen (λ s. content s.boxed) self.new ≡ seen (λ s. content s.boxed) self.old) }
    {
        if !self.is_in(session) {
            return Err(Stop::NotEnabled);
        }
        self.ask_here(alloc, inc, act)
    }
}
