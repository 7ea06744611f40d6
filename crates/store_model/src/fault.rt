//! Why a store refuses a call.

ghost use Rattle.store_model.specs.Fault.{name_of};
ghost use Rattle.std.specs.Prelude.{◌≡◌};

use crate::disk::DiskFailure;
use std::alloc::AllocError;
use thiserror::Error;

/// Why a store refuses a call.
#[derive(Debug, Clone, Copy, PartialEq, Eq, Error)]
pub enum StoreFault {
    /// A call of the disk failed.
    #[error("the disk failed")]
    Device,
    /// The disk failed in an earlier call: the store has to be opened again.
    #[error("the store has to be opened again")]
    NeedsReopen,
    /// The document has more bytes than a store takes.
    #[error("the document is too big")]
    TooBig,
    /// An open journal that is shorter than it says, or says more than a store takes.
    #[error("the journal is damaged")]
    Damaged,
    /// No memory was left.
    #[error("no memory is left")]
    NoMemory,
}

impl StoreFault {
    /// The fault's name, as it is printed.
    pub fn name(&self) -> &'static str
        ensures { result.now ≡ name_of self.now }
    {
        match self {
            StoreFault::Device => "Device",
            StoreFault::NeedsReopen => "NeedsReopen",
            StoreFault::TooBig => "TooBig",
            StoreFault::Damaged => "Damaged",
            StoreFault::NoMemory => "NoMemory",
        }
    }
}

impl From<DiskFailure> for StoreFault {
    ghost use Rattle.store_model.specs.declared.fault.StoreFault.TheVariants.{Device};
    ghost use Rattle.std.specs.Prelude.{◌≡◌};

    ghost from_gives = { λ _ e. e ≡ Device };

    fn from(_: DiskFailure) -> Self {
        StoreFault::Device
    }
}

impl From<AllocError> for StoreFault {
    ghost use Rattle.store_model.specs.declared.fault.StoreFault.TheVariants.{NoMemory};
    ghost use Rattle.std.specs.Prelude.{◌≡◌};

    ghost from_gives = { λ _ e. e ≡ NoMemory };

    fn from(_: AllocError) -> Self {
        StoreFault::NoMemory
    }
}
