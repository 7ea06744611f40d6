//! Why a stream isn't put to the end of a list of streams.

use std::alloc::AllocFailed;
use thiserror::Error;

/// Why a stream isn't put to the end of a list of streams.
#[derive(Debug, Clone, Copy, Error)]
pub enum StreamsFault {
    /// Its name isn't greater than the last one.
    #[error("a stream's name is out of order")]
    OutOfOrder,
    /// No memory was left.
    #[error("no memory is left")]
    NoMemory,
}

impl StreamsFault {
    ghost use Rattle.std.specs.Prelude.{◌≡◌};
    ghost use Rattle.tree_streams.specs.FaultNames.{streams_fault_name};

    /// The fault's name, as it is printed.
    pub fn name(&self) -> &'static str
        ensures { result.now ≡ streams_fault_name self.now }
    {
        match self {
            StreamsFault::OutOfOrder => "OutOfOrder",
            StreamsFault::NoMemory => "NoMemory",
        }
    }
}

impl<T: Drop> From<AllocFailed<T>> for StreamsFault {
    ghost use Rattle.std.specs.Prelude.{◌≡◌};
    ghost use Rattle.tree_streams.specs.declared.fault.StreamsFault.TheVariants.{NoMemory};

    ghost from_gives = { λ _ e. e ≡ NoMemory };

    fn from(_: AllocFailed<T>) -> Self {
        StreamsFault::NoMemory
    }
}
