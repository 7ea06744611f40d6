//! Why bytes are no frames.

use std::alloc::{AllocError, AllocFailed};
use thiserror::Error;

/// Why bytes are no frames, or a frame has no bytes.
#[derive(Debug, Clone, Copy, PartialEq, Eq, Error)]
pub enum WireFault {
    /// The first four bytes aren't `OLCM`.
    #[error("a frame begins with other bytes")]
    BadMagic,
    /// The version isn't 2.
    #[error("a frame has another version")]
    BadVersion,
    /// There is no such kind of frame.
    #[error("there is no such kind of frame")]
    BadKind,
    /// The body has more than 1,048,576 bytes.
    #[error("a frame's body is too long")]
    TooLong,
    /// The body is none of its kind.
    #[error("a field is outside its range")]
    BadField,
    /// No memory was left.
    #[error("no memory is left")]
    NoMemory,
}

impl WireFault {
    ghost use Rattle.std.specs.Prelude.{◌≡◌};
    ghost use Rattle.message_model.specs.FaultNames.{fault_name};

    /// The fault's name, as it is printed.
    pub fn name(&self) -> &'static str
        ensures { result.now ≡ fault_name self.now }
    {
        match self {
            WireFault::BadMagic => "BadMagic",
            WireFault::BadVersion => "BadVersion",
            WireFault::BadKind => "BadKind",
            WireFault::TooLong => "TooLong",
            WireFault::BadField => "BadField",
            WireFault::NoMemory => "NoMemory",
        }
    }
}

impl From<AllocError> for WireFault {
    ghost use Rattle.std.specs.Prelude.{◌≡◌};
    ghost use Rattle.message_model.specs.declared.fault.WireFault.TheVariants.{NoMemory};

    ghost from_gives = { λ _ e. e ≡ NoMemory };

    fn from(_: AllocError) -> Self {
        WireFault::NoMemory
    }
}

impl<T: Drop> From<AllocFailed<T>> for WireFault {
    ghost use Rattle.std.specs.Prelude.{◌≡◌};
    ghost use Rattle.message_model.specs.declared.fault.WireFault.TheVariants.{NoMemory};

    ghost from_gives = { λ _ e. e ≡ NoMemory };

    fn from(_: AllocFailed<T>) -> Self {
        WireFault::NoMemory
    }
}
