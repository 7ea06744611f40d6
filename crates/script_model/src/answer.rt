//! What is printed of a command.

use container_model::fault::ContainerFault;
use message_values::refusal::Refusal;
use store_model::fault::StoreFault;

/// What is printed of a command.
#[derive(Clone, Copy)]
pub enum Told {
    /// This frame was made.
    Frame(u32),
    /// This object was made.
    Object(u32),
    /// This server was started.
    Server(u32),
    /// An object refused a call.
    Refused(Refusal),
    /// It was done.
    Done,
    /// The container refused it.
    Fault(ContainerFault),
    /// A save was lost: the disk refused it, and the file is the one from before.
    Lost(StoreFault),
    /// This frame was made of a file, with objects from this number on, so many.
    Opened(u32, u32, u32),
    /// What a file holds isn't read: its disk isn't given or opened.
    Unread(StoreFault),
}
