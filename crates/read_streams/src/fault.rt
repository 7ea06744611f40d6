//! Why a stream isn't copied.

use thiserror::Error;

/// Why blocks aren't copied.
#[derive(Debug, Clone, Copy, Error)]
pub enum CopyFault {
    /// A read fails.
    #[error("reading fails")]
    Unreadable,
    /// A write fails.
    #[error("writing fails")]
    Unwritable,
    /// No memory was left.
    #[error("no memory is left")]
    NoMemory,
}
