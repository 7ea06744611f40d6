//! The places of a directory at which it is at fault.

/// A place of a directory at which it is at fault.
#[derive(Drop)]
pub enum EntryPlace {
    /// It has no entries.
    Nowhere,
    /// The entry to which this way leads: the entries on it below the root, of which it is the last. The root where
    /// there are none.
    Entry(Vec<u32>),
    /// Two entries of the storage to which this way leads.
    Twins(Vec<u32>, u32, u32),
}
