//! Why a tree isn't written.

use std::alloc::{AllocError, AllocFailed};
use thiserror::Error;

/// Why a tree isn't written.
#[derive(Debug, Clone, Copy, Error)]
pub enum WriteFault {
    /// The tree needs more room than a file has.
    #[error("the tree is too big for a file")]
    TooBig,
    /// No memory was left.
    #[error("no memory is left")]
    NoMemory,
}

impl WriteFault {
    ghost use Rattle.std.specs.Prelude.{◌≡◌};
    ghost use Rattle.cfb_file.specs.FaultNames.{fault_name};

    /// The fault's name, as it is printed.
    pub fn name(&self) -> &'static str
        ensures { result.now ≡ fault_name self.now }
    {
        match self {
            WriteFault::TooBig => "TooBig",
            WriteFault::NoMemory => "NoMemory",
        }
    }
}

impl From<AllocError> for WriteFault {
    ghost use Rattle.std.specs.Prelude.{◌≡◌};
    ghost use Rattle.cfb_file.specs.declared.fault.WriteFault.TheVariants.{NoMemory};

    ghost from_gives = { λ _ e. e ≡ NoMemory };

    fn from(_: AllocError) -> Self {
        WriteFault::NoMemory
    }
}

impl<T: Drop> From<AllocFailed<T>> for WriteFault {
    ghost use Rattle.std.specs.Prelude.{◌≡◌};
    ghost use Rattle.cfb_file.specs.declared.fault.WriteFault.TheVariants.{NoMemory};

    ghost from_gives = { λ _ e. e ≡ NoMemory };

    fn from(_: AllocFailed<T>) -> Self {
        WriteFault::NoMemory
    }
}
