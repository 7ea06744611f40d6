//! What happens in a story.

use crate::event::Event;
use message_values::items::Items;
use std::alloc::Global;

/// What happens in a story.
#[derive(Drop)]
pub enum Moment {
    /// An event of the present run, or at a server of an earlier one.
    Event(Event),
    /// The container stops and starts again. Of these frames the disk has kept the commit that is asked or in doubt.
    Stop(Items<u32>),
}
