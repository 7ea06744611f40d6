//! Where an object stands in its frame.

/// The cells of an object in its frame.
#[derive(Clone, Copy)]
pub struct Area {
    /// Its left column.
    pub x: u16,
    /// Its top line.
    pub y: u16,
    /// How many columns it has.
    pub w: u16,
    /// How many lines it has.
    pub h: u16,
}
