//! Why a compound file is refused, as far as its header and its chains go.

ghost use Rattle.cfb_header.specs.Fault.{name_of};
ghost use Rattle.std.specs.Prelude.{◌≡◌};

use std::alloc::{AllocError, AllocFailed};
use thiserror::Error;

/// Why a file is refused.
#[derive(Debug, Clone, Copy, PartialEq, Eq, Error)]
pub enum ChainFault {
    /// Fewer bytes than a header has.
    #[error("the file is shorter than a header")]
    Truncated,
    /// Another signature than that of a compound file.
    #[error("the file has no signature of a compound file")]
    BadSignature,
    /// A fixed field of the header, at this offset, has another value than version 3 gives it.
    #[error("the header's field at byte {0} isn't supported")]
    Unsupported(u8),
    /// A chain or the FAT names a sector that isn't in the file.
    #[error("a chain leaves the file")]
    OutOfFile,
    /// A chain meets one of its own sectors again.
    #[error("a chain runs in a circle")]
    Cycle,
    /// A sector stands in two chains.
    #[error("two chains share a sector")]
    CrossLinked,
    /// A chain is shorter than what it holds.
    #[error("a chain is too short")]
    ShortChain,
    /// More FAT sectors than the header lists.
    #[error("the file is too big")]
    TooBig,
    /// No memory was left.
    #[error("no memory is left")]
    NoMemory,
}

impl ChainFault {
    /// The fault's name, as it is printed.
    pub fn name(&self) -> &'static str
        ensures { result.now ≡ name_of self.now }
    {
        match self {
            ChainFault::Truncated => "Truncated",
            ChainFault::BadSignature => "BadSignature",
            ChainFault::Unsupported(_) => "Unsupported",
            ChainFault::OutOfFile => "OutOfFile",
            ChainFault::Cycle => "Cycle",
            ChainFault::CrossLinked => "CrossLinked",
            ChainFault::ShortChain => "ShortChain",
            ChainFault::TooBig => "TooBig",
            ChainFault::NoMemory => "NoMemory",
        }
    }
}

impl From<AllocError> for ChainFault {
    ghost use Rattle.std.specs.Prelude.{◌≡◌};
    ghost use Rattle.cfb_header.specs.declared.fault.ChainFault.TheVariants.{NoMemory};

    ghost from_gives = { λ _ e. e ≡ NoMemory };

    fn from(_: AllocError) -> Self {
        ChainFault::NoMemory
    }
}

impl<T: Drop> From<AllocFailed<T>> for ChainFault {
    ghost use Rattle.std.specs.Prelude.{◌≡◌};
    ghost use Rattle.cfb_header.specs.declared.fault.ChainFault.TheVariants.{NoMemory};

    ghost from_gives = { λ _ e. e ≡ NoMemory };

    fn from(_: AllocFailed<T>) -> Self {
        ChainFault::NoMemory
    }
}
