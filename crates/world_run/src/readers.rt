//! What a world shows: of the present run, what is left of those before it, and the session document.

ghost use Rattle.std.specs.Prelude.{◌≡◌, length, option_copied};
ghost use Rattle.message_values.specs.Found.{nth};
ghost use Rattle.world_run.specs.Shown.{shown};
ghost use Rattle.world_run.specs.Told.{seen_pasts};
ghost use Rattle.world_model.specs.World.{counted_document, frame_file};

use crate::past::Past;
use crate::world::World;
use container_checks::lookups::place;
use container_core::container::ContainerCore;
use container_model::answer::Done;
use object_core::embedded::Embedded;
use world_model::logs::{Document, EventAnswer, Sent, ServerDone, Taken};

impl World {
    /// The container.
    pub fn container(&self) -> &ContainerCore
        ensures { result.now ≡ (shown (λ s. (⟦<dyn Embedded as Embedded>⟧ s.boxed.vtable).content s.boxed.value)
            self.now).now.rec }
    {
        &self.runs.state.host.core
    }

    /// How many events were taken.
    pub fn events_taken(&self) -> usize
        ensures { result ≡ length (shown (λ s. (⟦<dyn Embedded as Embedded>⟧ s.boxed.vtable).content s.boxed.value)
            self.now).now.answers }
    {
        self.runs.state.host.answers.len()
    }

    /// What an event was answered, by its number from 1.
    pub fn answer(&self, event: u32) -> Option<&EventAnswer>
        ensures { option_copied result
            ≡ nth (shown (λ s. (⟦<dyn Embedded as Embedded>⟧ s.boxed.vtable).content s.boxed.value)
            self.now).now.answers event }
    {
        match place(&self.runs.state.host.answers, event) {
            Some(i) => Some(&self.runs.state.host.answers[i]),
            None => None,
        }
    }

    /// The messages that were sent, by their places from 1.
    pub fn sent(&self) -> &[Sent]
        ensures { result.now ≡ (shown (λ s. (⟦<dyn Embedded as Embedded>⟧ s.boxed.vtable).content s.boxed.value)
            self.now).now.sent }
    {
        &self.runs.state.host.sent
    }

    /// The contents that the container took as work contents, each with what its record held of the object just before.
    pub fn taken(&self) -> &[Taken]
        ensures { result.now ≡ (shown (λ s. (⟦<dyn Embedded as Embedded>⟧ s.boxed.vtable).content s.boxed.value)
            self.now).now.taken }
    {
        &self.runs.state.host.taken
    }

    /// The servers of which messages were forged, by their incarnations, one for each message, in order.
    pub fn hostile(&self) -> &[u32]
        ensures { result.now ≡ (shown (λ s. (⟦<dyn Embedded as Embedded>⟧ s.boxed.vtable).content s.boxed.value)
            self.now).now.hostile }
    {
        &self.runs.state.host.hostile
    }

    /// What the container counted.
    pub fn container_done(&self) -> &[Done]
        ensures { result.now ≡ (shown (λ s. (⟦<dyn Embedded as Embedded>⟧ s.boxed.vtable).content s.boxed.value)
            self.now).now.container_done }
    {
        &self.runs.state.host.container_done
    }

    /// What the servers counted.
    pub fn server_done(&self) -> &[ServerDone]
        ensures { result.now ≡ (shown (λ s. (⟦<dyn Embedded as Embedded>⟧ s.boxed.vtable).content s.boxed.value)
            self.now).now.server_done }
    {
        &self.runs.state.host.server_done
    }

    /// The document of a frame's last counted commit.
    pub fn counted(&self, frame: u32) -> Option<&Document>
        ensures { option_copied result ≡ counted_document
            (shown (λ s. (⟦<dyn Embedded as Embedded>⟧ s.boxed.vtable).content s.boxed.value) self.now).now frame }
    {
        match place(&self.runs.state.host.counted, frame) {
            Some(i) => match &self.runs.state.host.counted[i] {
                Some(document) => Some(document),
                None => None,
            },
            None => None,
        }
    }

    /// The file of a frame whose commit was counted, none while it is in doubt whether the last one was done.
    pub fn frame_file(&self, frame: u32) -> Option<&[u8]>
        ensures { option_copied result ≡ frame_file
            (shown (λ s. (⟦<dyn Embedded as Embedded>⟧ s.boxed.vtable).content s.boxed.value) self.now).now frame }
    {
        self.runs.state.host.frame_file(frame)
    }

    /// What is left of the runs before the present one that raised a session, the first of them first.
    pub fn past(&self) -> &[Past]
        ensures { seen_pasts (λ s. (⟦<dyn Embedded as Embedded>⟧ s.boxed.vtable).content s.boxed.value) result.now
            ≡ (shown (λ s. (⟦<dyn Embedded as Embedded>⟧ s.boxed.vtable).content s.boxed.value) self.now).past }
    {
        &self.runs.past
    }

    /// The name of the session document, which each later run opens first, once there is one.
    pub fn document(&self) -> Option<&[u8]>
        ensures { option_copied result
            ≡ (shown (λ s. (⟦<dyn Embedded as Embedded>⟧ s.boxed.vtable).content s.boxed.value) self.now).document }
    {
        self.runs.document()
    }
}
