//! The places of the system's own parts at which a file is at fault.

/// A link of a chain: the sector that has it, which is none where the chain begins, and the number that it names.
#[derive(Clone, Copy)]
pub struct Link {
    /// The sector whose entry it is.
    pub from: Option<u32>,
    /// The number that it names.
    pub to: u32,
}

/// A place at which a file is at fault.
#[derive(Clone, Copy)]
pub enum FaultPlace {
    /// The fields of the header.
    Header,
    /// The lists of the sectors of the FAT and of the DIFAT.
    Fat,
    /// A link of the directory's chain.
    Directory(Link),
    /// A link of the mini FAT's chain.
    MiniFat(Link),
    /// A link of the mini stream's chain.
    MiniStream(Link),
}
