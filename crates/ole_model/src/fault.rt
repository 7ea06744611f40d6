//! Why a stream or a document is refused.

use std::alloc::{AllocError, AllocFailed};
use thiserror::Error;

/// Why a stream or a document is refused.
#[derive(Debug, Clone, Copy, Error)]
pub enum OleFault {
    /// A field is missing.
    #[error("a field is missing")]
    Truncated,
    /// The version of `\1Ole` is another one.
    #[error("the version is another one")]
    BadVersion,
    /// The object is a link.
    #[error("the object is a link")]
    Linked,
    /// A string passes the end, or its last byte isn't zero.
    #[error("a string passes the end or isn't closed")]
    BadString,
    /// The tree holds no document.
    #[error("the tree holds no document")]
    NotADocument,
    /// There are more than 64 objects.
    #[error("there are more than 64 objects")]
    TooManyObjects,
    /// No memory was left.
    #[error("no memory is left")]
    NoMemory,
}

impl OleFault {
    ghost use Rattle.std.specs.Prelude.{◌≡◌};
    ghost use Rattle.ole_model.specs.FaultNames.{fault_name};

    /// The fault's name, as it is printed.
    pub fn name(&self) -> &'static str
        ensures { result.now ≡ fault_name self.now }
    {
        match self {
            OleFault::Truncated => "Truncated",
            OleFault::BadVersion => "BadVersion",
            OleFault::Linked => "Linked",
            OleFault::BadString => "BadString",
            OleFault::NotADocument => "NotADocument",
            OleFault::TooManyObjects => "TooManyObjects",
            OleFault::NoMemory => "NoMemory",
        }
    }
}

impl From<AllocError> for OleFault {
    ghost use Rattle.std.specs.Prelude.{◌≡◌};
    ghost use Rattle.ole_model.specs.declared.fault.OleFault.TheVariants.{NoMemory};

    ghost from_gives = { λ _ e. e ≡ NoMemory };

    fn from(_: AllocError) -> Self {
        OleFault::NoMemory
    }
}

impl<T: Drop> From<AllocFailed<T>> for OleFault {
    ghost use Rattle.std.specs.Prelude.{◌≡◌};
    ghost use Rattle.ole_model.specs.declared.fault.OleFault.TheVariants.{NoMemory};

    ghost from_gives = { λ _ e. e ≡ NoMemory };

    fn from(_: AllocFailed<T>) -> Self {
        OleFault::NoMemory
    }
}
