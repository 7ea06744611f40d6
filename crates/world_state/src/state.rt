//! What a world is made of, and the events that happen in it.

ghost use Rattle.std.specs.Prelude.{◌≡◌, ◌==◌, ◌≤◌, ◌<◌, ◌+◌, ◌++◌, [], List, ℕ, IfErr, IfSome, MatchOption, None};
ghost use Rattle.std.specs.Prelude.{OnErr, OnOk, Ok, Err, Some, length, map, slice_get, take, vec_len, vec_capacity};
ghost use Rattle.std.specs.Prelude.{true, false};
ghost use Rattle.container_model.specs.Numbered.{IsNth};
ghost use Rattle.message_values.specs.Found.{nth, set_nth};
ghost use Rattle.world_model.specs.declared.event.Event.{Event};
ghost use Rattle.world_host.specs.Servers.{ends_by};
ghost use Rattle.world_state.specs.Lives.{Lives};
ghost use Rattle.world_state.specs.Plans.{forging, tell};
ghost use Rattle.world_state.specs.View.{seen, seen_instance, seen_stocked};
ghost use Rattle.world_model.specs.World.{MayChoose, StopsFor, crash, limited, StopsAt, empty_world, ended_at};
ghost use Rattle.world_model.specs.World.{started_instance};
ghost use Rattle.world_model.specs.World.{step, view_in, no_choice, Choice};
ghost use Rattle.world_model.specs.declared.event.Event.TheVariants as event;

use crate::instance::{Instance, end_of};
use crate::stock::Stock;
use container_checks::lookups::place;
use container_core::container::Limits;
use container_model::command::Command;
use container_model::server_link::ServerLink;
use message_values::message::Message;
use object_core::embedded::Embedded;
use server_core::server::ServerCore;
use std::alloc::Global;
use tree_values::bytes::Bytes;
use world_host::host::{Host, Servers, add};
use world_model::event::{Event, Stop};
use world_model::life::Life;
use world_model::logs::View;

/// A run of a container: the container with its books and files, its servers, and the objects in stock. A world holds
/// it, with what stays true of it.
#[derive(Drop)]
pub struct State {
    /// The container, its files and its logs.
    pub host: Host,
    /// The servers, by their incarnations from 1.
    pub instances: Vec<Instance>,
    /// The objects in stock.
    pub stock: Stock,
}

impl State {
    /// A run in which nothing has happened.
    pub fn new(alloc: Global, limits: Limits, stock: Stock) -> State
        requires { limits.numbers ≤ 1000000 }
        ensures { seen (λ s. content s.boxed) result ≡ empty_world limits.numbers
            (map (seen_stocked (λ s. content s.boxed)) stock.boxes.items) }
    {
        State {
            host: Host::new(alloc, limits),
            instances: Vec::new(alloc),
            stock,
        }
    }

    // Starts servers of these incarnations.
    fn start(&mut self, alloc: Global, starts: Vec<u32>)
        requires { vec_len self.old.instances + vec_len starts ≤ vec_capacity self.old.instances }
        ensures { seen (λ s. content s.boxed) self.new
            ≡ record (seen (λ s. content s.boxed) self.old) {
              instances =
                  map (seen_instance (λ s. content s.boxed)) self.old.instances.items
                  ++ map (started_instance self.old.host.core.session self.old.host.core.numbers) starts.items;
            } }
    {
        let session = self.host.core.session();
        let numbers = self.host.core.numbers();
        for inc in starts {
            let core = ServerCore::new(alloc, session, inc, numbers);
            add(
                &mut self.instances,
                Instance {
                    life: Life::Running,
                    core,
                },
            );
        }
    }

    // The servers that a step of the container ends and starts.
    fn finish(&mut self, alloc: Global, servers: Servers)
        requires { vec_len self.old.instances + vec_len servers.starts ≤ vec_capacity self.old.instances }
        ensures { seen (λ s. content s.boxed) self.new
            ≡ record (seen (λ s. content s.boxed) self.old) {
              instances =
                  ends_by servers.ends.items (seen (λ s. content s.boxed) self.old).instances
                  ++ map (started_instance self.old.host.core.session self.old.host.core.numbers) servers.starts.items;
            } }
    {
        let Servers { ends, starts } = servers;
        self.end(&ends);
        self.start(alloc, starts);
    }

    // A command of a user.
    fn command(&mut self, alloc: Global, command: &Command) -> Result<(), Stop>
        ensures taken { OnOk result (step (seen (λ s. content s.boxed) self.old) no_choice
            (event.Command command.now) ≡ Ok (seen (λ s. content s.boxed) self.new)) }
        ensures refused { IfErr result
            (StopsFor (step (seen (λ s. content s.boxed) self.old) no_choice (event.Command command.now))) }
        ensures kept { OnErr result (seen (λ s. content s.boxed) self.new ≡ seen (λ s. content s.boxed) self.old) }
    {
        self.host.open()?;
        if self.instances.reserve(self.host.most()).is_err() {
            return Err(Stop::NoMemory);
        }
        match self.host.command(alloc, command) {
            Ok(servers) => {
                self.finish(alloc, servers);
                Ok(())
            }
            Err(_) => Err(Stop::NoMemory),
        }
    }

    // A message comes to the container, from its place among those that were sent.
    pub(crate) fn tell(
        &mut self,
        alloc: Global,
        p: u32,
        link: ServerLink,
        message: Message,
    ) -> Result<(), Stop>
        ensures taken { OnOk result (tell (seen (λ s. content s.boxed) self.old) p link message
            ≡ Ok (seen (λ s. content s.boxed) self.new)) }
        ensures refused { IfErr result (StopsFor (tell (seen (λ s. content s.boxed) self.old) p link message)) }
        ensures kept { OnErr result (seen (λ s. content s.boxed) self.new ≡ seen (λ s. content s.boxed) self.old) }
    {
        self.host.open()?;
        if self.instances.reserve(self.host.most()).is_err() {
            return Err(Stop::NoMemory);
        }
        match self.host.tell(alloc, p, link, message) {
            Ok(servers) => {
                self.finish(alloc, servers);
                Ok(())
            }
            Err(_) => Err(Stop::NoMemory),
        }
    }

    // A message comes to the container on the link of a server, whether or not it has sent it.
    fn forge_on(&mut self, alloc: Global, inc: u32, message: &Message) -> Result<(), Stop>
        ensures taken { OnOk result (forging (seen (λ s. content s.boxed) self.old) inc message.now
            ≡ Ok (seen (λ s. content s.boxed) self.new)) }
        ensures refused { IfErr result (StopsFor (forging (seen (λ s. content s.boxed) self.old) inc message.now)) }
        ensures kept { OnErr result (seen (λ s. content s.boxed) self.new ≡ seen (λ s. content s.boxed) self.old) }
    {
        self.host.open()?;
        if self.instances.reserve(self.host.most()).is_err() {
            return Err(Stop::NoMemory);
        }
        let Ok(copied) = message.copy(alloc) else {
            return Err(Stop::NoMemory);
        };
        match self.host.forge(alloc, inc, copied) {
            Ok(servers) => {
                self.finish(alloc, servers);
                Ok(())
            }
            Err(_) => Err(Stop::NoMemory),
        }
    }

    // A message is forged on the link of a server that was started.
    fn forge(&mut self, alloc: Global, inc: u32, message: &Message) -> Result<(), Stop>
        ensures taken { OnOk result (step (seen (λ s. content s.boxed) self.old) no_choice
            (event.Forge inc message.now) ≡ Ok (seen (λ s. content s.boxed) self.new)) }
        ensures refused { IfErr result
            (StopsFor (step (seen (λ s. content s.boxed) self.old) no_choice (event.Forge inc message.now))) }
        ensures kept { OnErr result (seen (λ s. content s.boxed) self.new ≡ seen (λ s. content s.boxed) self.old) }
    {
        let Some((_, life)) = self.life(inc) else {
            return Err(Stop::NotEnabled);
        };
        match life {
            Life::Running => self.forge_on(alloc, inc, message),
            Life::Ended => self.forge_on(alloc, inc, message),
            Life::Reaped => Err(Stop::NotEnabled),
        }
    }

    #[tactic(auto, using(crate::proofs::Servers::nth_at, crate::proofs::Servers::set_at))]
    // How far the life of the server that stands at i is.
    fn set_life(&mut self, i: usize, inc: u32, life: Life)
        requires { IsNth inc self.old.instances.items i }
        ensures set { IfSome (nth (seen (λ s. content s.boxed) self.old).instances inc)
            (λ x. seen (λ s. content s.boxed) self.new ≡ record (seen (λ s. content s.boxed) self.old) {
              instances =
                  set_nth (seen (λ s. content s.boxed) self.old).instances inc (record x { life = life });
            }) }
        ensures host { self.new.host ≡ self.old.host }
        ensures capacity { vec_capacity self.new.instances ≡ vec_capacity self.old.instances }
        ensures length { vec_len self.new.instances ≡ vec_len self.old.instances }
    {
        self.instances[i].life = life;
    }

    #[tactic(auto, using(crate::proofs::Servers::nth_at))]
    // The life of a server of this incarnation, and where it stands.
    pub(crate) fn life(&self, inc: u32) -> Option<(usize, Life)>
        ensures { MatchOption result (nth (seen (λ s. content s.boxed) self.now).instances inc ≡ None)
            (Lives inc self.now.instances.items (seen (λ s. content s.boxed) self.now).instances) }
    {
        match place(&self.instances, inc) {
            Some(i) => Some((i, self.instances[i].life)),
            None => None,
        }
    }

    // The server of this incarnation ends, if there is one that runs.
    fn end_one(&mut self, inc: u32)
        ensures ended { seen (λ s. content s.boxed) self.new
            ≡ record (seen (λ s. content s.boxed) self.old) {
              instances =
                  ended_at inc (seen (λ s. content s.boxed) self.old).instances
                  (nth (seen (λ s. content s.boxed) self.old).instances inc);
            } }
        ensures host { self.new.host ≡ self.old.host }
        ensures capacity { vec_capacity self.new.instances ≡ vec_capacity self.old.instances }
        ensures length { vec_len self.new.instances ≡ vec_len self.old.instances }
    {
        match self.life(inc) {
            Some((i, life)) => self.set_life(i, inc, end_of(life)),
            None => {}
        }
    }

    // The servers of these incarnations end, one after the other.
    fn end(&mut self, ends: &[u32])
        ensures ended { seen (λ s. content s.boxed) self.new
            ≡ record (seen (λ s. content s.boxed) self.old) {
              instances =
                  ends_by ends.now (seen (λ s. content s.boxed) self.old).instances;
            } }
        ensures host { self.new.host ≡ self.old.host }
        ensures capacity { vec_capacity self.new.instances ≡ vec_capacity self.old.instances }
        ensures length { vec_len self.new.instances ≡ vec_len self.old.instances }
    {
        for inc in ends {
            self.end_one(*inc);
        }
    }

    /// Whether this is the session of the container.
    pub fn is_in(&self, session: u32) -> bool
        ensures { result ≡ (session == (seen (λ s. content s.boxed) self.now).rec.session) }
    {
        session == self.host.core.session()
    }

    /// A server of these crashes.
    ///
    /// Refused: `NotEnabled` where it doesn't run; then `EventLimit`, then `NoMemory`. Then nothing changes.
    pub fn crash_here(&mut self, alloc: Global, inc: u32) -> Result<(), Stop>
        ensures taken { OnOk result (limited (seen (λ s. content s.boxed) self.old)
            (crash (seen (λ s. content s.boxed) self.old) inc
            (nth (seen (λ s. content s.boxed) self.old).instances inc))
            ≡ Ok (seen (λ s. content s.boxed) self.new)) }
        ensures refused { IfErr result
            (StopsFor (limited (seen (λ s. content s.boxed) self.old)
            (crash (seen (λ s. content s.boxed) self.old) inc
            (nth (seen (λ s. content s.boxed) self.old).instances inc)))) }
        ensures kept { OnErr result (seen (λ s. content s.boxed) self.new ≡ seen (λ s. content s.boxed) self.old) }
    {
        let Some((i, life)) = self.life(inc) else {
            return Err(Stop::NotEnabled);
        };
        match life {
            Life::Running => {}
            Life::Ended | Life::Reaped => return Err(Stop::NotEnabled),
        }
        self.host.open()?;
        self.set_life(i, inc, Life::Ended);
        self.host.quiet(alloc);
        Ok(())
    }

    // A server crashes.
    fn crash(&mut self, alloc: Global, session: u32, inc: u32) -> Result<(), Stop>
        ensures taken { OnOk result (step (seen (λ s. content s.boxed) self.old) no_choice (event.Crash session inc)
            ≡ Ok (seen (λ s. content s.boxed) self.new)) }
        ensures refused { IfErr result
            (StopsFor (step (seen (λ s. content s.boxed) self.old) no_choice (event.Crash session inc))) }
        ensures kept { OnErr result (seen (λ s. content s.boxed) self.new ≡ seen (λ s. content s.boxed) self.old) }
    {
        if !self.is_in(session) {
            return Err(Stop::NotEnabled);
        }
        self.crash_here(alloc, inc)
    }

    // The end of a server is told.
    fn reap(&mut self, alloc: Global, inc: u32) -> Result<(), Stop>
        ensures taken { OnOk result (step (seen (λ s. content s.boxed) self.old) no_choice (event.Reap inc)
            ≡ Ok (seen (λ s. content s.boxed) self.new)) }
        ensures refused { IfErr result
            (StopsFor (step (seen (λ s. content s.boxed) self.old) no_choice (event.Reap inc))) }
        ensures kept { OnErr result (seen (λ s. content s.boxed) self.new ≡ seen (λ s. content s.boxed) self.old) }
    {
        let Some((i, life)) = self.life(inc) else {
            return Err(Stop::NotEnabled);
        };
        match life {
            Life::Ended => {}
            Life::Running | Life::Reaped => return Err(Stop::NotEnabled),
        }
        self.host.open()?;
        if self.instances.reserve(self.host.most()).is_err() {
            return Err(Stop::NoMemory);
        }
        match self.host.reap(alloc, inc) {
            Ok(servers) => {
                self.set_life(i, inc, Life::Reaped);
                self.finish(alloc, servers);
                Ok(())
            }
            Err(_) => Err(Stop::NoMemory),
        }
    }

    // The commit of a frame's file is done.
    fn done(&mut self, alloc: Global, f: u32) -> Result<(), Stop>
        ensures taken { OnOk result ((choice : Choice) × MayChoose (seen (λ s. content s.boxed) self.old) choice
            (event.Done f) × (step (seen (λ s. content s.boxed) self.old) choice (event.Done f)
            ≡ Ok (seen (λ s. content s.boxed) self.new))) }
        ensures refused { IfErr result (StopsAt (seen (λ s. content s.boxed) self.old) (event.Done f)) }
        ensures kept { OnErr result (seen (λ s. content s.boxed) self.new ≡ seen (λ s. content s.boxed) self.old) }
    {
        let room = self.instances.reserve(self.host.most()).is_ok();
        match self.host.done(alloc, f, room) {
            Ok(servers) => {
                self.finish(alloc, servers);
                Ok(())
            }
            Err(stop) => Err(stop),
        }
    }

    // The commit of a frame's file fails.
    fn fail(&mut self, alloc: Global, f: u32) -> Result<(), Stop>
        ensures taken { OnOk result ((choice : Choice) × MayChoose (seen (λ s. content s.boxed) self.old) choice
            (event.Fail f) × (step (seen (λ s. content s.boxed) self.old) choice (event.Fail f)
            ≡ Ok (seen (λ s. content s.boxed) self.new))) }
        ensures refused { IfErr result (StopsAt (seen (λ s. content s.boxed) self.old) (event.Fail f)) }
        ensures kept { OnErr result (seen (λ s. content s.boxed) self.new ≡ seen (λ s. content s.boxed) self.old) }
    {
        let room = self.instances.reserve(self.host.most()).is_ok();
        match self.host.fail(alloc, f, room) {
            Ok(servers) => {
                self.finish(alloc, servers);
                Ok(())
            }
            Err(stop) => Err(stop),
        }
    }

    // A commit in doubt was kept.
    fn keep(&mut self, alloc: Global, f: u32) -> Result<(), Stop>
        ensures taken { OnOk result ((choice : Choice) × MayChoose (seen (λ s. content s.boxed) self.old) choice
            (event.Resolve f true) × (step (seen (λ s. content s.boxed) self.old) choice (event.Resolve f true)
            ≡ Ok (seen (λ s. content s.boxed) self.new))) }
        ensures refused { IfErr result (StopsAt (seen (λ s. content s.boxed) self.old) (event.Resolve f true)) }
        ensures kept { OnErr result (seen (λ s. content s.boxed) self.new ≡ seen (λ s. content s.boxed) self.old) }
    {
        let room = self.instances.reserve(self.host.most()).is_ok();
        match self.host.resolve_kept(alloc, f, room) {
            Ok(servers) => {
                self.finish(alloc, servers);
                Ok(())
            }
            Err(stop) => Err(stop),
        }
    }

    // A commit in doubt is lost.
    fn lose(&mut self, alloc: Global, f: u32) -> Result<(), Stop>
        ensures taken { OnOk result ((choice : Choice) × MayChoose (seen (λ s. content s.boxed) self.old) choice
            (event.Resolve f false) × (step (seen (λ s. content s.boxed) self.old) choice (event.Resolve f false)
            ≡ Ok (seen (λ s. content s.boxed) self.new))) }
        ensures refused { IfErr result (StopsAt (seen (λ s. content s.boxed) self.old) (event.Resolve f false)) }
        ensures kept { OnErr result (seen (λ s. content s.boxed) self.new ≡ seen (λ s. content s.boxed) self.old) }
    {
        let room = self.instances.reserve(self.host.most()).is_ok();
        match self.host.resolve_lost(alloc, f, room) {
            Ok(servers) => {
                self.finish(alloc, servers);
                Ok(())
            }
            Err(stop) => Err(stop),
        }
    }

    // A file is opened.
    fn open_file(
        &mut self,
        alloc: Global,
        name: &Bytes,
        width: u16,
        height: u16,
    ) -> Result<(), Stop>
        ensures taken { OnOk result ((choice : Choice) × MayChoose (seen (λ s. content s.boxed) self.old) choice
            (event.Open name.now width height)
            × (step (seen (λ s. content s.boxed) self.old) choice (event.Open name.now width height)
            ≡ Ok (seen (λ s. content s.boxed) self.new))) }
        ensures refused { IfErr result (StopsAt (seen (λ s. content s.boxed) self.old)
            (event.Open name.now width height)) }
        ensures kept { OnErr result (seen (λ s. content s.boxed) self.new ≡ seen (λ s. content s.boxed) self.old) }
    {
        self.host.open()?;
        if self.instances.reserve(self.host.most()).is_err() {
            return Err(Stop::NoMemory);
        }
        match self.host.open_file(alloc, name, width, height) {
            Ok(servers) => {
                self.finish(alloc, servers);
                Ok(())
            }
            Err(_) => Err(Stop::NoMemory),
        }
    }

    // The state of an activation of the server that stands at i.
    pub(crate) fn view(&self, i: usize, act: u32) -> Option<View>
        requires { i < length self.now.instances.items }
        ensures { IfSome (slice_get self.now.instances.items i)
            (λ x. result ≡ view_in (seen_instance (λ s. content s.boxed) x).core act) }
    {
        match self.instances[i].core.activation(act) {
            Some(view) => Some(View {
                opened: view.opened,
                states: view.states,
                s: view.s,
            }),
            None => None,
        }
    }

    /// An event happens in the run.
    ///
    /// Refused: why the event isn't taken; or `NoMemory`. Then nothing changes.
    pub fn step(&mut self, alloc: Global, event: &Event) -> Result<(), Stop>
        ensures taken { OnOk result ((choice : Choice) × MayChoose (seen (λ s. content s.boxed) self.old) choice
            event.now × (step (seen (λ s. content s.boxed) self.old) choice event.now
            ≡ Ok (seen (λ s. content s.boxed) self.new))) }
        ensures refused { IfErr result (StopsAt (seen (λ s. content s.boxed) self.old) event.now) }
        ensures kept { OnErr result (seen (λ s. content s.boxed) self.new ≡ seen (λ s. content s.boxed) self.old) }
    {
        match event {
            Event::Command(command) => self.command(alloc, command),
            Event::Deliver(p) => self.deliver(alloc, *p),
            Event::Forge(inc, message) => self.forge(alloc, *inc, message),
            Event::Crash(session, inc) => self.crash(alloc, *session, *inc),
            Event::Reap(inc) => self.reap(alloc, *inc),
            Event::Done(f) => self.done(alloc, *f),
            Event::Fail(f) => self.fail(alloc, *f),
            Event::Resolve(f, is_kept) => match *is_kept {
                true => self.keep(alloc, *f),
                false => self.lose(alloc, *f),
            },
            Event::Open(name, width, height) => self.open_file(alloc, name, *width, *height),
            Event::Scribble(session, inc, act) => self.scribble(alloc, *session, *inc, *act),
            Event::Ask(session, inc, act) => self.ask(alloc, *session, *inc, *act),
        }
    }
}
