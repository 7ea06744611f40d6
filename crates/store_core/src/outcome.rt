//! How a commit ended.

use store_model::fault::StoreFault;

/// How a commit ended.
#[derive(Clone, Copy)]
pub enum Outcome {
    /// Its bytes are the document.
    Kept,
    /// They aren't: the document is the one from before. This was the commit's error.
    Lost(StoreFault),
}
