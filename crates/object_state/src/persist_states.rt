//! The state of an object's storage (IPersistStorage, "Modes").
ghost use Rattle.std.specs.Prelude.{◌≡◌};
ghost use Rattle.object_state.specs.Persists.{may_read, may_write};
ghost use Rattle.object_state.specs.Persists as persist;

use crate::faults::StateFault;
use crate::operations::Op;

/// What an object may do with its storage.
#[derive(Clone, Copy)]
pub enum PersistState {
    /// It has none yet.
    Unset,
    /// It may read and write.
    Normal,
    /// It may read only: a save is under way.
    NoScribble,
    /// It may do neither: the storage is given away.
    HandsOff,
}

impl PersistState {
    /// Whether an object in this state may read its storage.
    pub fn may_read(self) -> bool
        ensures { result ≡ may_read self }
    {
        matches!(self, PersistState::Normal | PersistState::NoScribble)
    }

    /// Whether an object in this state may write into its storage.
    pub fn may_write(self) -> bool
        ensures { result ≡ may_write self }
    {
        matches!(self, PersistState::Normal)
    }
}

// The table's entry for an operation.
fn entry(from: PersistState, op: Op) -> Result<PersistState, StateFault>
    ensures { result ≡ persist.table op from }
{
    match (from, op) {
        (PersistState::Unset, Op::InitNew | Op::Load) => Ok(PersistState::Normal),
        (PersistState::Unset, _) => Err(StateFault::NotInitialized),
        (_, Op::InitNew | Op::Load) => Err(StateFault::AlreadyInitialized),
        (PersistState::Normal, Op::Save(_)) => Ok(PersistState::NoScribble),
        (PersistState::NoScribble, Op::Save(_)) => Err(StateFault::Scribble),
        (PersistState::HandsOff, Op::Save(_) | Op::HandsOff) => Err(StateFault::HandsOff),
        (_, Op::HandsOff) => Ok(PersistState::HandsOff),
        (PersistState::Normal, Op::SaveCompleted { .. } | Op::SaveDropped(_)) => {
            Err(StateFault::WrongState)
        }
        (PersistState::HandsOff, Op::SaveCompleted { storage: false, .. }) => {
            Err(StateFault::NeedsStorage)
        }
        (_, Op::SaveCompleted { .. } | Op::SaveDropped(_)) => Ok(PersistState::Normal),
        (state, _) => Ok(state),
    }
}

/// The state of an object's storage, with the number of the last save that it was asked for: only
/// that one may be completed or dropped.
#[derive(Clone, Copy)]
pub struct Persist {
    /// What the object may do with its storage.
    pub state: PersistState,
    /// The number of its last Save, none before any.
    pub last_save: Option<u32>,
}

impl Persist {
    /// The state of an object that has no storage yet.
    pub fn new() -> Persist
        ensures { result ≡ persist.unset }
    {
        Persist {
            state: PersistState::Unset,
            last_save: None,
        }
    }

    /// The state after an operation, by the table of IPersistStorage.
    ///
    /// - AlreadyInitialized: InitNew or Load, but for an object without storage.
    /// - NotInitialized: any other operation on an object without storage.
    /// - Scribble: Save in NoScribble.
    /// - HandsOff: Save or HandsOff in HandsOff.
    /// - NeedsStorage: SaveCompleted without storage in HandsOff.
    /// - WrongState: SaveCompleted or SaveDropped in Normal, or, where the table would take it, of
    ///   another number than the last Save's.
    pub fn step(self, op: Op) -> Result<Persist, StateFault>
        ensures { result ≡ persist.step self op }
    {
        let state = entry(self.state, op)?;
        if !may_end(self, op) {
            return Err(StateFault::WrongState);
        }
        let last_save = match op {
            Op::Save(save) => Some(save),
            _ => self.last_save,
        };
        Ok(Persist { state, last_save })
    }
}

// Whether the operation ends no save, or the last one.
fn may_end(kept: Persist, op: Op) -> bool
    ensures { result ≡ persist.ends_last (persist.ended_save op) kept.last_save }
{
    match op {
        Op::SaveCompleted { save, .. } | Op::SaveDropped(save) => match kept.last_save {
            Some(last) => save == last,
            None => false,
        },
        _ => true,
    }
}
