//! The journal: its gate, the new length, the form, and what the document is to become.

/// The gate of a journal that is to be carried out.
pub const OPEN: u8 = 1;

/// The gate of a journal that doesn't count.
pub const CLOSED: u8 = 0;

/// The gate, the length and the form, in bytes.
pub const HEADER: u64 = 9;

/// The form in which the whole document follows.
pub const WHOLE: u8 = 0;

/// The form in which the number of blocks follows, and then the blocks.
pub const BLOCKS: u8 = 1;

/// Where the blocks begin, in bytes.
pub const FIRST_BLOCK: u64 = 13;

/// A block of the document, in bytes.
pub const BLOCK: u64 = 512;

/// A block in the journal, with its number, in bytes.
pub const ENTRY: u64 = 516;
