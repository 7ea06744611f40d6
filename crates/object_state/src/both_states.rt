//! The two states of an object together.
ghost use Rattle.std.specs.Prelude.{◌≡◌};
ghost use Rattle.object_state.specs.Both as both;

use crate::faults::StateFault;
use crate::object_states::ObjectState;
use crate::operations::Op;
use crate::persist_states::Persist;

/// The states of an object that isn't passive: of its storage and of its window.
#[derive(Clone, Copy)]
pub struct States {
    /// The state of its storage.
    pub persist: Persist,
    /// The state of its window.
    pub object: ObjectState,
}

impl States {
    /// The states of an object whose server is asked for it: loaded, and without storage.
    pub fn new() -> States
        ensures { result ≡ both.loaded }
    {
        States {
            persist: Persist::new(),
            object: ObjectState::Loaded,
        }
    }

    /// The states after an operation, which both tables must take. A refusal is that of
    /// `Persist::step`, if it refuses, else that of `ObjectState::step`.
    pub fn step(self, op: Op) -> Result<States, StateFault>
        ensures { result ≡ both.step self op }
    {
        let persist = self.persist.step(op)?;
        let object = self.object.step(op)?;
        Ok(States { persist, object })
    }
}
