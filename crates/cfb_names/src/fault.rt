//! Why a directory or a name is refused.

ghost use Rattle.cfb_names.specs.Faults.{name_of_fault};
ghost use Rattle.std.specs.Prelude.{◌≡◌};

use std::alloc::{AllocError, AllocFailed};
use thiserror::Error;

/// Why a directory or a name is refused.
#[derive(Debug, Clone, Copy, PartialEq, Eq, Error)]
pub enum DirFault {
    /// A name of no characters.
    #[error("a name is empty")]
    NameEmpty,
    /// A name of more than 31 characters.
    #[error("a name is too long")]
    NameTooLong,
    /// A name with a character past ASCII.
    #[error("a name has a character past ASCII")]
    NameNotAscii,
    /// A name with a zero or one of `/ \ : !`.
    #[error("a name has a forbidden character")]
    NameForbidden,
    /// Two siblings whose names are equal in upper case.
    #[error("two siblings have one name")]
    DuplicateName,
    /// An entry that isn't there, or is of another type than its place asks for, or whose name has an odd length.
    #[error("a directory entry is bad")]
    BadEntry,
    /// An entry that links reach twice.
    #[error("an entry is linked twice")]
    TreeCycle,
    /// A storage nested past 32.
    #[error("storages are nested too deep")]
    TooNested,
    /// No memory was left.
    #[error("no memory is left")]
    NoMemory,
}

impl DirFault {
    /// The fault's name, as it is printed.
    pub fn name(&self) -> &'static str
        ensures { result.now ≡ name_of_fault self.now }
    {
        match self {
            DirFault::NameEmpty => "NameEmpty",
            DirFault::NameTooLong => "NameTooLong",
            DirFault::NameNotAscii => "NameNotAscii",
            DirFault::NameForbidden => "NameForbidden",
            DirFault::DuplicateName => "DuplicateName",
            DirFault::BadEntry => "BadEntry",
            DirFault::TreeCycle => "TreeCycle",
            DirFault::TooNested => "TooNested",
            DirFault::NoMemory => "NoMemory",
        }
    }
}

impl From<AllocError> for DirFault {
    ghost use Rattle.std.specs.Prelude.{◌≡◌};
    ghost use Rattle.cfb_names.specs.declared.fault.DirFault.TheVariants.{NoMemory};

    ghost from_gives = { λ _ e. e ≡ NoMemory };

    fn from(_: AllocError) -> Self {
        DirFault::NoMemory
    }
}

impl<T: Drop> From<AllocFailed<T>> for DirFault {
    ghost use Rattle.std.specs.Prelude.{◌≡◌};
    ghost use Rattle.cfb_names.specs.declared.fault.DirFault.TheVariants.{NoMemory};

    ghost from_gives = { λ _ e. e ≡ NoMemory };

    fn from(_: AllocFailed<T>) -> Self {
        DirFault::NoMemory
    }
}
