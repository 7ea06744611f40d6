//! Why no file is made.

use cfb_file::fault::WriteFault;
use text_io::input::InputFault;
use thiserror::Error;
pub use tree_descriptions::fault::LineFault;

/// Why no file is made.
#[derive(Debug, Clone, Copy, Error)]
pub enum MakeFault {
    /// The description isn't read.
    #[error("{0}")]
    Input(InputFault),
    /// A line of the description is refused.
    #[error("line {0}: {1}")]
    Line(usize, LineFault),
    /// The described tree isn't written.
    #[error("{0}")]
    Write(WriteFault),
    /// A write fails.
    #[error("writing fails")]
    Unwritable,
}
