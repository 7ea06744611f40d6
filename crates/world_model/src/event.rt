//! What happens in a world.

ghost use Rattle.std.specs.Prelude.{◌≡◌, IfOk};

use container_model::command::Command;
use message_values::message::Message;
use std::alloc::{AllocError, Global};
use tree_values::bytes::Bytes;

/// What happens in a world.
#[derive(Drop)]
pub enum Event {
    /// A user's command.
    Command(Command),
    /// The message at this place of those that were sent, from 1, is delivered, for the first time or again.
    Deliver(u32),
    /// This message comes on the link of a server, whatever it is, and whether or not the server has sent it.
    Forge(u32, Message),
    /// The server of this session and incarnation crashes.
    Crash(u32, u32),
    /// The end of a server is told.
    Reap(u32),
    /// The commit of a frame's file is done.
    Done(u32),
    /// The commit of a frame's file fails: it isn't known whether the file was committed.
    Fail(u32),
    /// It is known of a frame in doubt whether its file was committed.
    Resolve(u32, bool),
    /// The file of this name is opened as a frame, so many columns wide and so many lines high.
    Open(Bytes, u16, u16),
    /// An activation writes the content that it has now: by the session and the incarnation of its server, and its
    /// number.
    Scribble(u32, u32, u32),
    /// An activation asks to be relieved of its frame's menus and border: by the session and the incarnation of its
    /// server, and its number.
    Ask(u32, u32, u32),
}

/// Why a run stops before an event.
#[derive(Clone, Copy)]
pub enum Stop {
    /// The event can't happen in this world.
    NotEnabled,
    /// The event makes an activation of a class of which no object is left in stock.
    OutOfStock,
    /// A world takes no more than 10,000 events.
    EventLimit,
    /// No memory was left.
    NoMemory,
}

impl Stop {
    ghost use Rattle.std.specs.Prelude.{◌≡◌};
    ghost use Rattle.world_model.specs.StopNames.{stop_name};

    /// The name of the stop, as it is printed.
    pub fn name(&self) -> &'static str
        ensures { result.now ≡ stop_name self.now }
    {
        match self {
            Stop::NotEnabled => "NotEnabled",
            Stop::OutOfStock => "OutOfStock",
            Stop::EventLimit => "EventLimit",
            Stop::NoMemory => "NoMemory",
        }
    }
}

/// An equal command.
pub fn copy_command(alloc: Global, command: &Command) -> Result<Command, AllocError>
    ensures { IfOk result (λ c. c ≡ command.now) }
{
    match command {
        Command::New(name, width, height) => Ok(Command::New(name.copy(alloc)?, *width, *height)),
        Command::Insert(frame, kind, area) => Ok(Command::Insert(*frame, *kind, *area)),
        Command::Session => Ok(Command::Session),
        Command::Start => Ok(Command::Start),
        Command::Run(object, inc) => Ok(Command::Run(*object, *inc)),
        Command::Edit(object, bytes) => Ok(Command::Edit(*object, bytes.copy(alloc)?)),
        Command::Save(frame) => Ok(Command::Save(*frame)),
        Command::SaveAs(frame, name) => Ok(Command::SaveAs(*frame, name.copy(alloc)?)),
        Command::Delete(object) => Ok(Command::Delete(*object)),
        Command::Kill(inc) => Ok(Command::Kill(*inc)),
        Command::Close(object, option) => Ok(Command::Close(*object, *option)),
        Command::Verb(object, number) => Ok(Command::Verb(*object, *number)),
    }
}
