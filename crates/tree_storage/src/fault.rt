//! Why a call on a tree is refused.

use std::alloc::{AllocError, AllocFailed};
use thiserror::Error;

/// Why a call on a tree is refused.
#[derive(Debug, Clone, Copy, Error)]
pub enum TreeFault {
    /// Nothing stands at the path.
    #[error("nothing stands at the path")]
    NotFound,
    /// The name is taken.
    #[error("the name is taken")]
    Exists,
    /// The path is empty, or a stream stands on its way, or it leads to a storage where a stream is asked for.
    #[error("something of another kind stands at the path or on its way")]
    WrongKind,
    /// No transaction is open.
    #[error("no transaction is open")]
    NoTransaction,
    /// A ninth open transaction, or a storage nested past 32.
    #[error("transactions or storages are nested too deep")]
    TooDeep,
    /// No memory was left.
    #[error("no memory is left")]
    NoMemory,
}

impl TreeFault {
    ghost use Rattle.std.specs.Prelude.{◌≡◌};
    ghost use Rattle.tree_storage.specs.FaultNames.{fault_name};

    /// The fault's name, as it is printed.
    pub fn name(&self) -> &'static str
        ensures { result.now ≡ fault_name self.now }
    {
        match self {
            TreeFault::NotFound => "NotFound",
            TreeFault::Exists => "Exists",
            TreeFault::WrongKind => "WrongKind",
            TreeFault::NoTransaction => "NoTransaction",
            TreeFault::TooDeep => "TooDeep",
            TreeFault::NoMemory => "NoMemory",
        }
    }
}

impl From<AllocError> for TreeFault {
    ghost use Rattle.std.specs.Prelude.{◌≡◌};
    ghost use Rattle.tree_storage.specs.declared.fault.TreeFault.TheVariants.{NoMemory};

    ghost from_gives = { λ _ e. e ≡ NoMemory };

    fn from(_: AllocError) -> Self {
        TreeFault::NoMemory
    }
}

impl<T: Drop> From<AllocFailed<T>> for TreeFault {
    ghost use Rattle.std.specs.Prelude.{◌≡◌};
    ghost use Rattle.tree_storage.specs.declared.fault.TreeFault.TheVariants.{NoMemory};

    ghost from_gives = { λ _ e. e ≡ NoMemory };

    fn from(_: AllocFailed<T>) -> Self {
        TreeFault::NoMemory
    }
}
