//! What becomes of what a file frees that takes an older one's place.

/// What becomes of the bytes of sectors and mini sectors that nothing lies in any more.
#[derive(Clone, Copy)]
pub enum Freed {
    /// They stay, so that fewer blocks change.
    Kept,
    /// They become zeros, so that nothing of the older file can be read in the new one.
    Zeroed,
}
