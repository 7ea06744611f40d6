//! A world.

ghost use Rattle.std.specs.Prelude.{[]};
ghost use Rattle.object_core.specs.Content.{note};
ghost use Rattle.world_stories.specs.Holding.{Sound};
ghost use Rattle.world_run.specs.Told.{told};

use crate::runs::Runs;
use container_core::container::Limits;
use object_core::embedded::Embedded;
use std::alloc::Global;
use world_model::event::Stop;
use world_model::moment::Moment;
use world_state::stock::Stock;

/// A container that may stop and start again, its servers, which may outlive it, the messages between them, and the
/// files.
///
/// Every world is safe, whatever happened in it, and however often the container stopped. Sessions rise, each was
/// raised by a commit that was counted, and each run opens first the file that bears the last one. In each run: no call
/// acted twice, a call has one answer, and a kept reply is the reply to its call; no save was counted twice. The file
/// of a frame that isn't in doubt denotes the document of its last counted commit, and what any file gives is a commit
/// that some run counted, or one that a stop kept. Of honest servers, which are those of which no message was forged:
/// at most one activation of those of the present run has a frame's grant, and the frame names it; each content that
/// was taken was sent under the storage grant that the container of that run held open; and what a server counted of a
/// save the container counted with the same content. A message of an earlier run changes nothing of the present one.
#[derive(Drop)]
pub struct World {
    pub(crate) runs: Runs,
    // Its facts don't look at what the objects in boxes contain.
    ghost holds: { ∥ Sound (told (λ s. note []) runs) ∥₁ },
}

impl World {
    ghost use Rattle.std.specs.Prelude.{◌≡◌, ◌≤◌, MatchOption, length, map, slice_get, take, Some};
    ghost use Rattle.world_model.specs.SafeStory.{SafeStory};
    ghost use Rattle.world_model.specs.Story.{EndsAt, Tells, empty_story};
    ghost use Rattle.world_model.specs.declared.moment.Moment.{Moment};
    ghost use Rattle.world_run.specs.Shown.{shown};
    ghost use Rattle.world_state.specs.View.{seen_stocked};

    /// A world in which nothing has happened.
    pub fn new(alloc: Global, limits: Limits, stock: Stock) -> World
        requires { limits.numbers ≤ 1000000 }
        ensures empty { shown (λ s. (⟦<dyn Embedded as Embedded>⟧ s.boxed.vtable).content s.boxed.value) result
            ≡ empty_story limits.numbers
            (map (seen_stocked (λ s. (⟦<dyn Embedded as Embedded>⟧ s.boxed.vtable).content s.boxed.value))
            stock.boxes.items) }
        ensures safe { ∥ SafeStory (shown (λ s. (⟦<dyn Embedded as Embedded>⟧ s.boxed.vtable).content s.boxed.value)
            result) ∥₁ }
    {
        World {
            runs: Runs::new(alloc, limits, stock),
        }
    }

    /// Takes moments in order, up to the first that stops the story: gives how many were taken, and why it stopped.
    ///
    /// It stops at a moment that can't happen (`NotEnabled`), that makes an activation of a class of which no object is
    /// left (`OutOfStock`), that is one too many (`EventLimit`), or for want of memory; the moment changed nothing, and
    /// the story can go on with it.
    pub fn run(&mut self, alloc: Global, moments: &[Moment]) -> (usize, Option<Stop>)
        ensures safe { ∥ SafeStory (shown (λ s. (⟦<dyn Embedded as Embedded>⟧ s.boxed.vtable).content s.boxed.value)
            self.new) ∥₁ }
        ensures taken { Tells (shown (λ s. (⟦<dyn Embedded as Embedded>⟧ s.boxed.vtable).content s.boxed.value)
            self.old) (take result.0 moments.now)
            (shown (λ s. (⟦<dyn Embedded as Embedded>⟧ s.boxed.vtable).content s.boxed.value) self.new) }
        ensures within { result.0 ≤ length moments.now }
        ensures stop { MatchOption result.1 (result.0 ≡ length moments.now)
            (λ stop. (m : Moment) × (slice_get moments.now result.0 ≡ Some m)
            × EndsAt (shown (λ s. (⟦<dyn Embedded as Embedded>⟧ s.boxed.vtable).content s.boxed.value) self.new) m
            stop) }
    {
        self.runs.run(alloc, moments)
    }
}
