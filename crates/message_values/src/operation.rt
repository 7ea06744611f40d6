//! What a container asks of an object.

ghost use Rattle.std.specs.Prelude.{◌≡◌, IfOk};
ghost use Rattle.message_values.specs.Operations.{op_of};

use object_state::{CloseOption, Op};
use std::alloc::{AllocError, Global};
use tree_streams::stored::Stored;
use tree_values::bytes::Bytes;
use tree_values::class_id::ClassId;

/// What a call asks of an object.
#[derive(Drop)]
pub enum Operation {
    /// Begins with an empty storage, as an object of this class (IPersistStorage::InitNew).
    InitNew(ClassId),
    /// Begins with this content, as an object of this class (IPersistStorage::Load).
    Load(ClassId, Stored),
    /// Becomes active in place (IOleInPlaceObject).
    InPlace,
    /// Takes the menus and border space of its frame, under this grant.
    UiActivate(u32),
    /// Gives menus and border space back (IOleInPlaceObject::UIDeactivate).
    UiDeactivate,
    /// Leaves its place or its window (IOleInPlaceObject::InPlaceDeactivate).
    InPlaceDeactivate,
    /// Shows itself in a window of its own.
    OpenWindow,
    /// Changes the content by the edit that these bytes spell.
    Edit(Bytes),
    /// Answers the content, for the save of this number (IPersistStorage::Save).
    Save(u32),
    /// Gives its storage away (IPersistStorage::HandsOffStorage).
    HandsOff,
    /// Tells that a save is counted (IPersistStorage::SaveCompleted).
    SaveCompleted {
        /// The number of the save.
        save: u32,
        /// Whether a storage is given to go on with.
        storage: bool,
    },
    /// Tells that the save of this number was given up.
    SaveDropped(u32),
    /// Ends the object (IOleObject::Close).
    Close(CloseOption),
}

impl Operation {
    /// The operation without what it carries, as the tables of states know it.
    pub fn op(&self) -> Op
        ensures { result ≡ op_of self.now }
    {
        match self {
            Operation::InitNew(_) => Op::InitNew,
            Operation::Load(_, _) => Op::Load,
            Operation::InPlace => Op::InPlace,
            Operation::UiActivate(grant) => Op::UiActivate(*grant),
            Operation::UiDeactivate => Op::UiDeactivate,
            Operation::InPlaceDeactivate => Op::InPlaceDeactivate,
            Operation::OpenWindow => Op::OpenWindow,
            Operation::Edit(_) => Op::Edit,
            Operation::Save(save) => Op::Save(*save),
            Operation::HandsOff => Op::HandsOff,
            Operation::SaveCompleted { save, storage } => Op::SaveCompleted {
                save: *save,
                storage: *storage,
            },
            Operation::SaveDropped(save) => Op::SaveDropped(*save),
            Operation::Close(option) => Op::Close(*option),
        }
    }

    /// An equal operation.
    ///
    /// Refused for want of memory alone.
    pub fn copy(&self, alloc: Global) -> Result<Operation, AllocError>
        ensures { IfOk result (λ o. o ≡ self.now) }
    {
        match self {
            Operation::InitNew(class) => Ok(Operation::InitNew(*class)),
            Operation::Load(class, content) => Ok(Operation::Load(*class, content.copy(alloc)?)),
            Operation::InPlace => Ok(Operation::InPlace),
            Operation::UiActivate(grant) => Ok(Operation::UiActivate(*grant)),
            Operation::UiDeactivate => Ok(Operation::UiDeactivate),
            Operation::InPlaceDeactivate => Ok(Operation::InPlaceDeactivate),
            Operation::OpenWindow => Ok(Operation::OpenWindow),
            Operation::Edit(edit) => Ok(Operation::Edit(edit.copy(alloc)?)),
            Operation::Save(save) => Ok(Operation::Save(*save)),
            Operation::HandsOff => Ok(Operation::HandsOff),
            Operation::SaveCompleted { save, storage } => Ok(Operation::SaveCompleted {
                save: *save,
                storage: *storage,
            }),
            Operation::SaveDropped(save) => Ok(Operation::SaveDropped(*save)),
            Operation::Close(option) => Ok(Operation::Close(*option)),
        }
    }
}
