//! What a server does with a message, and what it refuses.

ghost use Rattle.std.specs.Prelude.{◌≡◌, Some};

use message_values::message::Message;
use object_core::embedded::Embedded;
use server_model::counted::Counted;
use server_model::fault::ServerFault;

/// What a server did with a call.
#[derive(Drop)]
pub struct Reaction {
    /// The reply, which is to be sent.
    pub reply: Message,
    /// The save that the server counted with it.
    pub counted: Option<Counted>,
    /// The object that was handed in, where it wasn't used.
    pub back: Option<Box<dyn Embedded>>,
}

/// A message that a server does nothing with.
#[derive(Drop)]
pub struct Refusal {
    /// Why.
    pub fault: ServerFault,
    /// The object that was handed in.
    pub back: Option<Box<dyn Embedded>>,
}

impl Refusal {
    /// No memory was left.
    pub(crate) fn no_memory(boxed: Box<dyn Embedded>) -> Refusal
        ensures fault { result.fault ≡ ServerFault.NoMemory }
        ensures back { result.back ≡ Some boxed }
    {
        Refusal {
            fault: ServerFault::NoMemory,
            back: Some(boxed),
        }
    }
}
