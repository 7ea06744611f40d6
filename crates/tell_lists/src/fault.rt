//! Why a file is refused a listing.

use read_files::fault::ReadFault;
use read_source::fault::PlacesFault;
use text_io::input::InputFault;
use thiserror::Error;

/// Why no listing is written.
#[derive(Debug, Clone, Copy, Error)]
pub enum ListFault {
    /// The file isn't read whole.
    #[error("{0}")]
    Input(InputFault),
    /// The bytes denote no tree.
    #[error("{0}")]
    Read(ReadFault),
    /// A write fails.
    #[error("writing fails")]
    Unwritable,
    /// No memory was left.
    #[error("no memory is left")]
    NoMemory,
}

impl From<PlacesFault> for ListFault {
    ghost use Rattle.std.specs.Prelude.{◌≡◌};
    ghost use Rattle.tell_lists.specs.Faults.{of_places_fault};

    ghost from_gives = { λ fault e. e ≡ of_places_fault fault };

    fn from(fault: PlacesFault) -> Self {
        match fault {
            PlacesFault::Unreadable => ListFault::Input(InputFault::Unreadable),
            PlacesFault::TooBig => ListFault::Input(InputFault::TooBig),
            PlacesFault::NoMemory => ListFault::Input(InputFault::NoMemory),
            PlacesFault::Header(fault) => ListFault::Read(ReadFault::from(fault)),
        }
    }
}
