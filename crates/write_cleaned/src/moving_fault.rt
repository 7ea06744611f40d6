//! Why a file isn't opened.

ghost use Rattle.std.specs.Prelude.{◌≡◌};
ghost use Rattle.write_cleaned.specs.Sources.{of_places_fault};

use read_files::fault::ReadFault;
use read_source::fault::PlacesFault;
use text_io::input::InputFault;
use thiserror::Error;

/// Why a file that can be sought in isn't opened.
#[derive(Debug, Clone, Copy, Error)]
pub enum SourceFault {
    /// The file isn't read.
    #[error("{0}")]
    Input(InputFault),
    /// The bytes denote no tree.
    #[error("{0}")]
    Read(ReadFault),
}

/// A fault of a file of which only some blocks are read.
pub(crate) fn of_places(fault: PlacesFault) -> SourceFault
    ensures { result ≡ of_places_fault fault }
{
    match fault {
        PlacesFault::Unreadable => SourceFault::Input(InputFault::Unreadable),
        PlacesFault::TooBig => SourceFault::Input(InputFault::TooBig),
        PlacesFault::NoMemory => SourceFault::Input(InputFault::NoMemory),
        PlacesFault::Header(fault) => SourceFault::Read(ReadFault::from(fault)),
    }
}
