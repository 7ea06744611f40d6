//! Why an embedded object refuses.

use std::alloc::{AllocError, AllocFailed};
use thiserror::Error;

/// Why an embedded object refuses a call.
#[derive(Debug, Clone, Copy, Error)]
pub enum EmbedFault {
    /// An edit outside the kind's grammar or ranges.
    #[error("the edit isn't one of this object's")]
    BadEdit,
    /// Streams that the kind doesn't take.
    #[error("the content isn't one of this object's")]
    BadContent,
    /// An edit that passes a size.
    #[error("the edit makes the object too big")]
    TooBig,
    /// No memory was left.
    #[error("no memory is left")]
    NoMemory,
}

impl EmbedFault {
    ghost use Rattle.std.specs.Prelude.{◌≡◌};
    ghost use Rattle.object_core.specs.FaultNames.{fault_name};

    /// The fault's name, as it is printed.
    pub fn name(&self) -> &'static str
        ensures { result.now ≡ fault_name self.now }
    {
        match self {
            EmbedFault::BadEdit => "BadEdit",
            EmbedFault::BadContent => "BadContent",
            EmbedFault::TooBig => "TooBig",
            EmbedFault::NoMemory => "NoMemory",
        }
    }
}

impl From<AllocError> for EmbedFault {
    ghost use Rattle.std.specs.Prelude.{◌≡◌};
    ghost use Rattle.object_core.specs.declared.fault.EmbedFault.TheVariants.{NoMemory};

    ghost from_gives = { λ _ e. e ≡ NoMemory };

    fn from(_: AllocError) -> Self {
        EmbedFault::NoMemory
    }
}

impl<T: Drop> From<AllocFailed<T>> for EmbedFault {
    ghost use Rattle.std.specs.Prelude.{◌≡◌};
    ghost use Rattle.object_core.specs.declared.fault.EmbedFault.TheVariants.{NoMemory};

    ghost from_gives = { λ _ e. e ≡ NoMemory };

    fn from(_: AllocFailed<T>) -> Self {
        EmbedFault::NoMemory
    }
}
