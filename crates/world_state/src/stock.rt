//! Objects in stock.

ghost use Rattle.std.specs.Prelude.{◌≡◌, ◌++◌, ◌∷◌, [], ◌<◌, IfErr, MatchOption, None, OnErr, OnOk, length, map};
ghost use Rattle.std.specs.Prelude.{vec_len, vec_capacity, option_map, Some, Option, ℕ, slice_get};
ghost use Rattle.std.specs.List.{insert};
ghost use Rattle.object_core.specs.Kinds.{kind_of};
ghost use Rattle.message_values.specs.Found.{find};
ghost use Rattle.world_state.specs.Plans.{IsFirst};
ghost use Rattle.world_state.specs.View.{seen_stocked};
ghost use Rattle.world_model.specs.World.{is_of};

use crate::instance::Stocked;
use object_core::embedded::Embedded;
use std::alloc::Global;
use tree_values::class_id::ClassId;

/// Fresh objects, of which a call that makes an activation takes one.
#[derive(Drop)]
pub struct Stock {
    pub(crate) boxes: Vec<Stocked>,
}

impl Stock {
    /// An empty stock.
    pub fn new(alloc: Global) -> Stock
        ensures { result.boxes.items ≡ [] }
    {
        Stock {
            boxes: Vec::new(alloc),
        }
    }

    /// One more object.
    ///
    /// Refused for want of memory alone. Then the object comes back, and nothing changes.
    pub fn add(&mut self, boxed: Box<dyn Embedded>) -> Result<(), Box<dyn Embedded>>
        ensures added { OnOk result (map (seen_stocked (λ s. content s.boxed)) self.new.boxes.items
            ≡ map (seen_stocked (λ s. content s.boxed)) self.old.boxes.items ++ kind_of (content boxed) ∷ []) }
        ensures back { IfErr result (λ b. b ≡ boxed) }
        ensures kept { OnErr result (self.new.boxes.items ≡ self.old.boxes.items) }
    {
        match self.boxes.push(Stocked { boxed }) {
            Ok(()) => Ok(()),
            Err(failed) => {
                let Stocked { boxed } = failed.value;
                Err(boxed)
            }
        }
    }

    /// Where the first object of a class stands.
    pub(crate) fn place(&self, class: ClassId) -> Option<usize>
        ensures { MatchOption result
            (find (is_of class) (map (seen_stocked (λ s. content s.boxed)) self.now.boxes.items) ≡ None)
            (IsFirst class (map (seen_stocked (λ s. content s.boxed)) self.now.boxes.items)) }
    {
        for (i, stocked) in self.boxes.iter().enumerate() {
            if stocked.class() == class {
                return Some(i);
            }
        }
        None
    }
}
