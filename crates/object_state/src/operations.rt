//! The operations that a container asks of an object, as far as the states tell them apart.

/// What becomes of the content of an object that closes (OLECLOSE of IOleObject::Close).
#[derive(Clone, Copy)]
pub enum CloseOption {
    /// The content is handed over (OLECLOSE_SAVEIFDIRTY).
    SaveIfDirty,
    /// The content is given up (OLECLOSE_NOSAVE).
    NoSave,
}

/// An operation without what it carries: no class, no content and no edit. Its numbers stay, since
/// the states look at them.
#[derive(Clone, Copy)]
pub enum Op {
    /// Begins with an empty storage (IPersistStorage::InitNew).
    InitNew,
    /// Begins with the storage of a content (IPersistStorage::Load).
    Load,
    /// Becomes active in place, without menus or border space of its own.
    InPlace,
    /// Takes menus and border space of its frame, under this grant.
    UiActivate(u32),
    /// Gives menus and border space back.
    UiDeactivate,
    /// Leaves its place, or its window (IOleInPlaceObject::InPlaceDeactivate).
    InPlaceDeactivate,
    /// Shows itself in a window of its own.
    OpenWindow,
    /// Changes the content.
    Edit,
    /// Answers the content for the save of this number (IPersistStorage::Save).
    Save(u32),
    /// Gives the storage away (IPersistStorage::HandsOffStorage).
    HandsOff,
    /// Tells that a save is counted (IPersistStorage::SaveCompleted).
    SaveCompleted {
        /// The number of the save.
        save: u32,
        /// Whether a storage is given to go on with.
        storage: bool,
    },
    /// Tells that the save of this number was given up.
    SaveDropped(u32),
    /// Ends the object (IOleObject::Close).
    Close(CloseOption),
}
