//! Frames: what goes over a link.

use message_values::message::Message;

/// The greatest length of an edit, in bytes.
pub const MOST_EDIT: usize = 65_536;

/// What goes over a link, one after another.
#[derive(Drop)]
pub enum Frame {
    /// A message.
    Message(Message),
    /// The sender has said what it had to say, and waits.
    Turn,
}
