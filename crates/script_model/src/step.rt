//! What happens to a container between the calls of its host.

use container_model::command::Command;
use message_values::items::Items;
use message_values::message::Message;
use ole_model::object::DocObject;
use tree_values::bytes::Bytes;

/// What happens to a container between the calls of its host.
#[derive(Drop)]
pub enum Step {
    /// The script's command of this place begins, from 0.
    Begins(usize),
    /// The container is given a user's command.
    Command(Command),
    /// The container is given a message, on the link of the server of this incarnation.
    Message(u32, Message),
    /// The container is told the end of this server.
    Reap(u32),
    /// The container is told that this frame's file was committed.
    Committed(u32),
    /// The container is told that the commit of this frame's file failed.
    Failed(u32),
    /// The container is told whether the file of this frame, which was in doubt, was committed after all.
    Resolved(u32, bool),
    /// The container is given a file that is opened under this name, as a frame so many columns wide and so many lines
    /// high: the session and the objects of its document.
    Open(Bytes, u16, u16, u32, Items<DocObject>),
    /// The container had no memory for what it was given last.
    NoMemory,
}
