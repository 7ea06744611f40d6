//! What a container answers and asks for.

ghost use Rattle.std.specs.Prelude.{◌≡◌};
ghost use Rattle.container_model.specs.Record.{acts, quiet_answer};

use message_values::items::Items;
use message_values::message::Message;
use message_values::refusal::Refusal;
use std::alloc::Global;
use tree_streams::area::Area;
use tree_streams::stored::Stored;
use tree_values::bytes::Bytes;
use tree_values::class_id::ClassId;

/// What a container asks its host for.
#[derive(Drop)]
pub enum Action {
    /// To send a message.
    Send(Message),
    /// To start a server of this incarnation.
    Start(u32),
    /// To end the server of this incarnation.
    End(u32),
    /// To commit the file of this frame.
    Commit(u32),
}

/// What a container answers.
#[derive(Drop)]
pub struct Answer {
    /// The frame that was made.
    pub frame: Option<u32>,
    /// The objects that were made.
    pub objects: Items<u32>,
    /// The server that was started.
    pub server: Option<u32>,
    /// Whether a content was taken as work content.
    pub taken: bool,
    /// Why an object refused a call.
    pub refused: Option<Refusal>,
    /// Whether an object got its frame without border space.
    pub no_tools: bool,
    /// What is to be done.
    pub actions: Items<Action>,
}

impl Answer {
    /// Nothing was made, and nothing is to be done.
    pub fn quiet(alloc: Global) -> Answer
        ensures { result ≡ quiet_answer }
    {
        Answer::acts(alloc, Items::new(alloc))
    }

    /// Nothing was made, and this is to be done.
    pub fn acts(alloc: Global, actions: Items<Action>) -> Answer
        ensures { result ≡ acts actions }
    {
        Answer {
            frame: None,
            objects: Items::new(alloc),
            server: None,
            taken: false,
            refused: None,
            no_tools: false,
            actions,
        }
    }
}

/// A content that a commit counts.
#[derive(Drop)]
pub struct Done {
    /// The object.
    pub object: u32,
    /// The number of the save.
    pub k: u32,
    /// The content.
    pub content: Stored,
}

/// The document of a frame, as a save counts it.
#[derive(Drop)]
pub struct FrameDocument {
    /// The session that its file says, 0 where there was none.
    pub session: u32,
    /// The frame's objects, in their order.
    pub parts: Items<Part>,
}

/// An object of a document.
#[derive(Drop)]
pub struct Part {
    /// The object's number.
    pub object: u32,
    /// Its class.
    pub class: ClassId,
    /// The name of its class for users.
    pub user_type: Bytes,
    /// Its cells.
    pub area: Area,
    /// Its content.
    pub content: Stored,
}
