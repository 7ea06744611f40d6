//! Why the blocks of a file aren't read.

use cfb_header::fault::ChainFault;
use std::alloc::AllocError;
use thiserror::Error;

/// Why the blocks of a file aren't read.
#[derive(Debug, Clone, Copy, PartialEq, Eq, Error)]
pub enum PlacesFault {
    /// A read fails.
    #[error("reading fails")]
    Unreadable,
    /// The file has more bytes than are taken.
    #[error("the file is too big")]
    TooBig,
    /// No memory was left.
    #[error("no memory is left")]
    NoMemory,
    /// The header is at fault.
    #[error("{0}")]
    Header(ChainFault),
}

impl From<AllocError> for PlacesFault {
    ghost use Rattle.std.specs.Prelude.{◌≡◌};
    ghost use Rattle.read_source.specs.declared.fault.PlacesFault.TheVariants.{NoMemory};

    ghost from_gives = { λ _ e. e ≡ NoMemory };

    fn from(_: AllocError) -> Self {
        PlacesFault::NoMemory
    }
}
