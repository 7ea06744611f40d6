//! Who has a frame's menus and border.

/// An activation that has a grant.
#[derive(Clone, Copy)]
pub struct Hold {
    /// The activation.
    pub act: u32,
    /// The grant of its frame.
    pub g: u32,
}
