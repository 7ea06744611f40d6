//! Why a stream isn't written.

use read_files::fault::ReadFault;
use text_io::input::InputFault;
use thiserror::Error;
use tree_storage::fault::TreeFault;

/// Why the bytes of a stream aren't written.
#[derive(Debug, Clone, Copy, Error)]
pub enum GetFault {
    /// The file isn't read whole.
    #[error("{0}")]
    Input(InputFault),
    /// The bytes denote no tree.
    #[error("{0}")]
    Read(ReadFault),
    /// The tree has no stream at the path.
    #[error("{0}")]
    Tree(TreeFault),
    /// A write fails.
    #[error("writing fails")]
    Unwritable,
}
