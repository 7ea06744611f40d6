//! Messages that wait while a link is held.

ghost use Rattle.std.specs.Prelude.{[], ◌∷◌, ◌++◌, ◌≡◌, OnErr, OnOk};

use message_values::answer::Answer;
use message_values::items::Items;
use message_values::message::{Message, Said};
use std::alloc::{AllocError, Global};
use std::marker::Model;
use tree_streams::stored::Stored;

/// The most bytes that wait of a link: 256 MiB.
const MOST: u64 = 268_435_456;

/// What a message takes besides its content, in bytes.
const EACH: u64 = 256;

/// Messages that wait, as contracts see them: how many bytes they take is no part of it.
#[derive(Drop)]
pub struct Waiting {
    messages: Items<Message>,
    bytes: u64,
}

impl Model for Waiting {
    ghost use Rattle.std.specs.Prelude.{List};
    ghost use Rattle.message_values.specs.declared.message.Message.{Message};

    ghost Value = { List Message };

    ghost view = { λ w. w.messages };
}

/// The bytes of a content.
fn bytes_in(content: &Stored) -> u64 {
    let mut bytes = content.picture.len() as u64;
    for stream in content.streams.as_slice() {
        bytes = bytes.saturating_add(stream.bytes.len() as u64);
    }
    bytes
}

/// The bytes that a message takes.
fn bytes_of(message: &Message) -> u64 {
    let content = match &message.said {
        Said::Write { content, .. } => bytes_in(content),
        Said::Reply {
            answer: Answer::Content(content),
            ..
        } => bytes_in(content),
        _ => 0,
    };
    content.saturating_add(EACH)
}

impl Waiting {
    /// No messages.
    pub fn new(alloc: Global) -> Waiting
        ensures { result ≡ [] }
    {
        Waiting {
            messages: Items::new(alloc),
            bytes: 0,
        }
    }

    /// The messages as a vector. It takes no memory.
    pub fn into_vec(self) -> Vec<Message>
        ensures { result.items ≡ self }
    {
        self.messages.into_vec()
    }

    /// Puts a message to the end.
    ///
    /// Refused for want of memory alone. Then nothing changes.
    pub fn push(&mut self, message: Message) -> Result<(), AllocError>
        ensures pushed { OnOk result (self.new ≡ self.old ++ message ∷ []) }
        ensures kept { OnErr result (self.new ≡ self.old) }
    {
        let bytes = bytes_of(&message);
        match self.messages.push(message) {
            Ok(()) => {
                self.bytes = self.bytes.saturating_add(bytes);
                Ok(())
            }
            Err(_) => Err(AllocError),
        }
    }

    /// Whether more waits than may.
    pub fn is_over(&self) -> bool {
        self.bytes > MOST
    }
}
