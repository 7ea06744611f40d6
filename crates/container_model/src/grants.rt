//! What an object's answer tells of its frame's grant.

use object_state::Tools;

/// What an answer tells of the frame's menus and border.
#[derive(Clone, Copy)]
pub enum Tells {
    /// The object has the frame from now on, under this grant, with these menus and this border.
    Gets(u32, Tools),
    /// The activation of this number has given the frame up.
    GivesUp(u32),
}
