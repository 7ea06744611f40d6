//! What a world keeps of what happened in it.

ghost use Rattle.std.specs.Prelude.{◌≡◌};
ghost use Rattle.world_model.specs.World.{quiet_outcome};

use container_model::answer::Part;
use container_model::fault::ContainerFault;
use message_values::items::Items;
use message_values::message::Message;
use message_values::refusal::Refusal;
use object_state::{PersistState, States};
use server_model::fault::ServerFault;
use std::alloc::Global;
use tree_streams::stored::Stored;
use tree_values::bytes::Bytes;

/// The state of an activation, as its server sees it.
#[derive(Clone, Copy)]
pub struct View {
    /// Whether it is open.
    pub opened: bool,
    /// The states of its storage and of its window.
    pub states: States,
    /// The storage grant.
    pub s: u32,
}

/// A message that was sent.
#[derive(Drop)]
pub struct Sent {
    /// The message.
    pub message: Message,
    /// Of a server's message, its activation's state just before; none where the server didn't know the activation, and
    /// none for a container's message.
    pub view: Option<View>,
}

/// A content that the container took as an object's work content, and what its record held of the object just before.
#[derive(Clone, Copy)]
pub struct Taken {
    /// The place of the message that brought it, in the list of messages sent; none where it was forged.
    pub place: Option<u32>,
    /// The object.
    pub object: u32,
    /// The incarnation of its server.
    pub inc: u32,
    /// Its activation.
    pub act: u32,
    /// The state of its storage.
    pub persist: PersistState,
    /// The storage grant.
    pub s: u32,
    /// Whether a save was asked of it and not answered yet.
    pub awaits_save: bool,
}

/// A content that a server counted.
#[derive(Drop)]
pub struct ServerDone {
    /// The server's incarnation.
    pub inc: u32,
    /// The object that the activation was made for.
    pub object: u32,
    /// The number of the save.
    pub k: u32,
    /// The content.
    pub content: Stored,
}

/// A document that was counted.
#[derive(Drop)]
pub struct Document {
    /// The number of the save.
    pub k: u32,
    /// Its session.
    pub session: u32,
    /// Its objects.
    pub parts: Items<Part>,
}

/// A file.
#[derive(Drop)]
pub struct File {
    /// Its name.
    pub name: Bytes,
    /// Its bytes.
    pub bytes: Bytes,
}

/// What an event led to.
#[derive(Drop)]
pub struct Outcome {
    /// The frame that was made.
    pub frame: Option<u32>,
    /// The objects that were made.
    pub objects: Items<u32>,
    /// The server that was started.
    pub server: Option<u32>,
    /// Whether a content was taken as work content.
    pub taken: bool,
    /// Why an object refused a call.
    pub refused: Option<Refusal>,
    /// Whether an object got its frame without border space.
    pub no_tools: bool,
    /// The places of the messages that were sent, from 1.
    pub sent: Items<u32>,
    /// The frames whose commit is asked.
    pub commits: Items<u32>,
}

impl Outcome {
    /// It led to nothing.
    pub fn quiet(alloc: Global) -> Outcome
        ensures { result ≡ quiet_outcome }
    {
        Outcome {
            frame: None,
            objects: Items::new(alloc),
            server: None,
            taken: false,
            refused: None,
            no_tools: false,
            sent: Items::new(alloc),
            commits: Items::new(alloc),
        }
    }
}

/// What an event is answered.
#[derive(Drop)]
pub enum EventAnswer {
    /// It led to this.
    Took(Outcome),
    /// The container refused it.
    Refused(ContainerFault),
    /// The server did nothing with it, and dropped it.
    Dropped(ServerFault),
}
