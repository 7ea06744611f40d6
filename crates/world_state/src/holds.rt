//! Who has a frame's menus and border.

ghost use Rattle.std.specs.Prelude.{◌≡◌, IfOk, map};
ghost use Rattle.world_model.specs.Report.{held_by};
ghost use Rattle.world_state.specs.View.{seen, seen_instance};

use crate::instance::Instance;
use crate::state::State;
use message_values::items::Items;
use object_core::embedded::Embedded;
use server_model::hold::Hold;
use std::alloc::{AllocError, Global};
use world_model::life::Life;

impl Instance {
    // The activations that have a grant, each with it, none where the server doesn't run.
    fn holds(&self, alloc: Global) -> Result<Items<Hold>, AllocError>
        ensures { IfOk result
            (λ holds. holds ≡ held_by
            (seen_instance (λ s. (⟦<dyn Embedded as Embedded>⟧ s.boxed.vtable).content s.boxed.value) self.now)) }
    {
        match self.life {
            Life::Running => {
                let holds = self.core.holds(alloc)?;
                Ok(Items::from_vec(holds))
            }
            Life::Ended | Life::Reaped => Ok(Items::new(alloc)),
        }
    }
}

impl State {
    /// The activations that have a grant, each with it, by server; none of a server that doesn't run.
    ///
    /// Refused for want of memory.
    pub fn holds(&self, alloc: Global) -> Result<Vec<Items<Hold>>, AllocError>
        ensures { IfOk result (λ holds. holds.items ≡ map held_by (seen (λ s. content s.boxed) self.now).instances) }
    {
        let mut holds = Vec::new(alloc);
        for instance in &self.instances {
            let held = instance.holds(alloc)?;
            holds.push(held)?;
        }
        Ok(holds)
    }
}
