//! Why a state refuses an operation.
ghost use Rattle.std.specs.Prelude.{◌≡◌};
ghost use Rattle.object_state.specs.Faults.{fault_name};

use thiserror::Error;

/// Why a state refuses an operation. A refused operation changes nothing.
#[derive(Clone, Copy, Debug, Error)]
pub enum StateFault {
    /// The object has its storage already: it takes InitNew or Load once.
    #[error("AlreadyInitialized")]
    AlreadyInitialized,
    /// The object has no storage yet, so it takes InitNew or Load alone.
    #[error("NotInitialized")]
    NotInitialized,
    /// A save is under way, until which the object may not write into its storage.
    #[error("Scribble")]
    Scribble,
    /// The object has given its storage away.
    #[error("HandsOff")]
    HandsOff,
    /// The object has given its storage away, and SaveCompleted gives it none.
    #[error("NeedsStorage")]
    NeedsStorage,
    /// The operation isn't one of this state, or names another save than the last.
    #[error("WrongState")]
    WrongState,
}

impl StateFault {
    /// The name of the fault, and nothing else.
    pub fn name(&self) -> &'static str
        ensures { result.now ≡ fault_name self.now }
    {
        match self {
            StateFault::AlreadyInitialized => "AlreadyInitialized",
            StateFault::NotInitialized => "NotInitialized",
            StateFault::Scribble => "Scribble",
            StateFault::HandsOff => "HandsOff",
            StateFault::NeedsStorage => "NeedsStorage",
            StateFault::WrongState => "WrongState",
        }
    }
}
