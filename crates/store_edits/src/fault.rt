//! Why a compound file isn't edited.

use cfb_file::fault::WriteFault;
use read_files::fault::ReadFault;
use store_model::fault::StoreFault;
use thiserror::Error;
pub use tree_descriptions::fault::LineFault;

/// Why a compound file isn't edited.
#[derive(Debug, Clone, Copy, Error)]
pub enum EditFault {
    /// The store that the file is in refuses a call.
    #[error("{0}")]
    Store(StoreFault),
    /// The file isn't read.
    #[error("{0}")]
    Read(ReadFault),
    /// A change is refused.
    #[error("line {0}: {1}")]
    Line(usize, LineFault),
    /// The changed tree isn't written.
    #[error("{0}")]
    Write(WriteFault),
}
