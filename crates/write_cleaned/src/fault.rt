//! Why a file isn't written anew.

use cfb_file::fault::WriteFault;
use read_files::fault::ReadFault;
use text_io::input::InputFault;
use thiserror::Error;

/// Why no clean file is written.
#[derive(Debug, Clone, Copy, Error)]
pub enum CleanFault {
    /// The file isn't read whole.
    #[error("{0}")]
    Input(InputFault),
    /// The bytes denote no tree.
    #[error("{0}")]
    Read(ReadFault),
    /// The tree isn't written.
    #[error("{0}")]
    Write(WriteFault),
    /// The file isn't read further, once writing has begun.
    #[error("{0}")]
    Cut(InputFault),
    /// A write fails.
    #[error("writing fails")]
    Unwritable,
}
