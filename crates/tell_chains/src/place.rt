//! The places of a stream's chain at which a file is at fault.

use tell_faults::place::Link;

/// Whose a sector is to which the chain of a stream leads.
#[derive(Drop)]
pub enum Owner {
    /// Nobody's, or whose isn't told.
    Nobody,
    /// That of one of the system's own parts: the FAT, the DIFAT, the directory, the mini FAT or the mini stream.
    System,
    /// That of another stream, to whose entry this way leads.
    Stream(Vec<u32>),
}

/// A place of a stream's chain at which a file is at fault.
#[derive(Drop)]
pub struct StreamPlace {
    /// The way to the stream's entry: the entries on it below the root, of which it is the last.
    pub way: Vec<u32>,
    /// Whether the stream lies in mini sectors.
    pub is_mini: bool,
    /// The link at which its chain goes wrong, by numbers of sectors or of mini sectors.
    pub link: Link,
    /// Whose sector the link names, where it leads to one that is taken.
    pub owner: Owner,
}
