//! Commands of a user.

use object_state::CloseOption;
use tree_streams::area::Area;
use tree_values::bytes::Bytes;

/// The three kinds of objects.
#[derive(Clone, Copy)]
pub enum ObjectKind {
    /// A note.
    Note,
    /// A table.
    Table,
    /// A drawing.
    Drawing,
}

/// A command of a user.
#[derive(Drop)]
pub enum Command {
    /// A new frame of this name, so many columns wide and so many lines high, without objects and without a file.
    New(Bytes, u16, u16),
    /// A new passive object in a frame, without content.
    Insert(u32, ObjectKind, Area),
    /// The document of frame 1 is saved with the next session, which is the container's once that is counted.
    Session,
    /// A new server.
    Start,
    /// A passive object is activated in a server.
    Run(u32, u32),
    /// A running object is edited by these bytes.
    Edit(u32, Bytes),
    /// A frame is saved under its name.
    Save(u32),
    /// A frame is saved under another name, which is its own from then on.
    SaveAs(u32, Bytes),
    /// A passive object goes from its frame.
    Delete(u32),
    /// A server is ended.
    Kill(u32),
    /// An object that isn't passive is closed, with its content or without.
    Close(u32, CloseOption),
    /// An object does the verb of this number (OLEIVERB).
    Verb(u32, i64),
}
