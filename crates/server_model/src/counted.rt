//! Saves that a server counts.

use tree_streams::stored::Stored;

/// A save that a server counts, as it is told that it is completed.
#[derive(Drop)]
pub struct Counted {
    /// The activation.
    pub act: u32,
    /// The number of the save.
    pub k: u32,
    /// The content that was answered for it.
    pub content: Stored,
}
