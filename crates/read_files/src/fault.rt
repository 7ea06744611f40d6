//! Why a file isn't read.

use cfb_header::fault::ChainFault;
use cfb_names::fault::DirFault;
use std::alloc::{AllocError, AllocFailed};
use thiserror::Error;
use tree_storage::fault::TreeFault;

/// Why a file isn't read.
#[derive(Debug, Clone, Copy, Error)]
pub enum ReadFault {
    /// The header or a chain of sectors is at fault.
    #[error("{0}")]
    Chain(ChainFault),
    /// The directory is at fault.
    #[error("{0}")]
    Directory(DirFault),
    /// No memory was left.
    #[error("no memory is left")]
    NoMemory,
}

/// Why the stream at a path of a file isn't read.
#[derive(Debug, Clone, Copy, Error)]
pub enum StreamFault {
    /// The file isn't read.
    #[error("{0}")]
    Read(ReadFault),
    /// Its tree has no stream at the path.
    #[error("{0}")]
    Tree(TreeFault),
}

impl ReadFault {
    ghost use Rattle.std.specs.Prelude.{◌≡◌};
    ghost use Rattle.read_files.specs.Reads.{read_fault_name};

    /// The fault's name, as it is printed.
    pub fn name(&self) -> &'static str
        ensures { result.now ≡ read_fault_name self.now }
    {
        match self {
            ReadFault::Chain(fault) => fault.name(),
            ReadFault::Directory(fault) => fault.name(),
            ReadFault::NoMemory => "NoMemory",
        }
    }
}

impl From<ChainFault> for ReadFault {
    ghost use Rattle.std.specs.Prelude.{◌≡◌};
    ghost use Rattle.read_files.specs.Reads.{chain_fault};

    ghost from_gives = { λ fault e. e ≡ chain_fault fault };

    fn from(fault: ChainFault) -> Self {
        match fault {
            ChainFault::NoMemory => ReadFault::NoMemory,
            _ => ReadFault::Chain(fault),
        }
    }
}

impl From<DirFault> for ReadFault {
    ghost use Rattle.std.specs.Prelude.{◌≡◌};
    ghost use Rattle.read_files.specs.Reads.{directory_fault};

    ghost from_gives = { λ fault e. e ≡ directory_fault fault };

    fn from(fault: DirFault) -> Self {
        match fault {
            DirFault::NoMemory => ReadFault::NoMemory,
            _ => ReadFault::Directory(fault),
        }
    }
}

impl From<AllocError> for ReadFault {
    ghost use Rattle.std.specs.Prelude.{◌≡◌};
    ghost use Rattle.read_files.specs.declared.fault.ReadFault.TheVariants.{NoMemory};

    ghost from_gives = { λ _ e. e ≡ NoMemory };

    fn from(_: AllocError) -> Self {
        ReadFault::NoMemory
    }
}

impl<T: Drop> From<AllocFailed<T>> for ReadFault {
    ghost use Rattle.std.specs.Prelude.{◌≡◌};
    ghost use Rattle.read_files.specs.declared.fault.ReadFault.TheVariants.{NoMemory};

    ghost from_gives = { λ _ e. e ≡ NoMemory };

    fn from(_: AllocFailed<T>) -> Self {
        ReadFault::NoMemory
    }
}
