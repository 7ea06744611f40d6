//! What is left of a run that is over.

ghost use Rattle.std.specs.Prelude.{◌≡◌};
ghost use Rattle.world_run.specs.Passes.{IsFirstRun};
ghost use Rattle.world_run.specs.Told.{seen_past, seen_pasts};

use container_model::answer::Done;
use object_core::embedded::Embedded;
use world_model::logs::{Document, ServerDone, Taken};
use world_state::instance::Instance;

/// What is left of a run that is over: its session, its servers, which may go on, and what was logged of it.
#[derive(Drop)]
pub struct Past {
    pub(crate) session: u32,
    pub(crate) instances: Vec<Instance>,
    pub(crate) owners: Vec<u32>,
    pub(crate) taken: Vec<Taken>,
    pub(crate) container_done: Vec<Done>,
    pub(crate) server_done: Vec<ServerDone>,
    pub(crate) counted: Vec<Option<Document>>,
    pub(crate) hostile: Vec<u32>,
}

impl Past {
    /// The session.
    pub fn session(&self) -> u32
        ensures { result ≡ (seen_past (λ s. (⟦<dyn Embedded as Embedded>⟧ s.boxed.vtable).content s.boxed.value)
            self.now).session }
    {
        self.session
    }

    /// The contents that the container took as work contents, each with what its record held of the object just before.
    pub fn taken(&self) -> &[Taken]
        ensures { result.now ≡ (seen_past (λ s. (⟦<dyn Embedded as Embedded>⟧ s.boxed.vtable).content s.boxed.value)
            self.now).taken }
    {
        &self.taken
    }

    /// What the container counted.
    pub fn container_done(&self) -> &[Done]
        ensures { result.now ≡ (seen_past (λ s. (⟦<dyn Embedded as Embedded>⟧ s.boxed.vtable).content s.boxed.value)
            self.now).container_done }
    {
        &self.container_done
    }

    /// What the servers counted.
    pub fn server_done(&self) -> &[ServerDone]
        ensures { result.now ≡ (seen_past (λ s. (⟦<dyn Embedded as Embedded>⟧ s.boxed.vtable).content s.boxed.value)
            self.now).server_done }
    {
        &self.server_done
    }

    /// The servers of which messages were forged, by their incarnations, one for each message, in order.
    pub fn hostile(&self) -> &[u32]
        ensures { result.now ≡ (seen_past (λ s. (⟦<dyn Embedded as Embedded>⟧ s.boxed.vtable).content s.boxed.value)
            self.now).hostile }
    {
        &self.hostile
    }
}

// Where the first run of a session stands.
pub(crate) fn place_of(past: &[Past], session: u32) -> Option<usize>
    ensures { IsFirstRun (seen_pasts (λ s. (⟦<dyn Embedded as Embedded>⟧ s.boxed.vtable).content s.boxed.value)
        past.now) session result }
{
    for (i, run) in past.iter().enumerate() {
        if run.session == session {
            return Some(i);
        }
    }
    None
}
