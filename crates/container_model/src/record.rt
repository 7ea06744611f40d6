//! What a container keeps of its frames and objects.

use message_values::items::Items;
use message_values::operation::Operation;
use object_state::{FrameUi, States};
use tree_streams::area::Area;
use tree_streams::stored::Stored;
use tree_values::bytes::Bytes;
use tree_values::class_id::ClassId;

/// The activation of an object that isn't passive.
#[derive(Drop)]
pub struct Link {
    /// The session of its server.
    pub session: u32,
    /// The incarnation of its server.
    pub inc: u32,
    /// The number of the activation.
    pub act: u32,
    /// The number of the last call.
    pub last: u32,
    /// What the last call asks, until it is answered.
    pub pending: Option<Operation>,
    /// What is asked next, in this order.
    pub waiting: Items<Operation>,
    /// The states, as far as calls were answered.
    pub states: States,
    /// The storage grant, 0 before the object has a storage.
    pub s: u32,
    /// The number of the last write that was taken.
    pub w: u32,
    /// The content that was answered in the present save.
    pub saved: Option<Stored>,
}

/// An object.
#[derive(Drop)]
pub struct Object {
    /// Its number.
    pub number: u32,
    /// The number of its frame.
    pub frame: u32,
    /// Its class.
    pub class: ClassId,
    /// The name of its class for users.
    pub user_type: Bytes,
    /// Its cells.
    pub area: Area,
    /// Its work content: what it has while it is passive.
    pub work: Stored,
    /// Its activation, none where it is passive.
    pub link: Option<Link>,
}

/// How far a save of a frame is.
#[derive(Clone, Copy)]
pub enum Phase {
    /// No save is under way.
    Idle,
    /// Objects are asked for their contents.
    Saving,
    /// Objects are asked to give their storages away.
    HandingOff,
    /// The file is to be committed.
    Committing,
    /// It isn't known whether the file was committed.
    InDoubt,
}

/// A frame.
#[derive(Drop)]
pub struct Frame {
    /// The name of its file.
    pub name: Bytes,
    /// The name that the present save was asked for with, if any.
    pub asked: Option<Bytes>,
    /// The number of its last save.
    pub k: u32,
    /// Its menus and border space.
    pub ui: FrameUi,
    /// Whether it was opened, or a commit of it was counted.
    pub stored: bool,
    /// The session of its document: of the one that it was opened from, 0 for a new one, and what a commit raised it
    /// to.
    pub session: u32,
    /// The session that the present save raises the document to, if it does. Every other save writes the frame's own.
    pub raised: Option<u32>,
    /// How far its save is.
    pub phase: Phase,
}
