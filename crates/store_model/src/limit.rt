//! How much a store takes.

/// The greatest length of a document that a store takes, in bytes: that of a compound file with 1,125 FAT sectors.
pub const MAX_DOCUMENT: u64 = 73_728_512;
