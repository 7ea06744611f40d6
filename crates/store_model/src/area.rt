//! The two areas of a disk.

/// One of a disk's two areas.
#[derive(Clone, Copy, PartialEq, Eq)]
pub enum Area {
    /// The document's bytes.
    Document,
    /// The journal of the commit under way.
    Journal,
}
