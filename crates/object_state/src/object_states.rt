//! The state of an object's window (in the manner of IOleObject and IOleInPlaceObject).
ghost use Rattle.std.specs.Prelude.{◌≡◌};
ghost use Rattle.object_state.specs.Objects as object;

use crate::faults::StateFault;
use crate::operations::Op;

/// How far an object is active.
#[derive(Clone, Copy)]
pub enum ObjectState {
    /// It isn't running: its content is all there is.
    Passive,
    /// Its server is asked for it, and it has no storage yet.
    Loaded,
    /// It runs, and shows nothing.
    Running,
    /// It is active at its place, without menus or border space.
    InPlaceActive,
    /// It is active at its place, with its frame's menus and border space.
    UiActive,
    /// It shows itself in a window of its own.
    Open,
}

impl ObjectState {
    /// The state after an operation, by the table of the states.
    ///
    /// - WrongState: the table has no entry for the operation in this state.
    pub fn step(self, op: Op) -> Result<ObjectState, StateFault>
        ensures { result ≡ object.step self op }
    {
        match (op, self) {
            (Op::InitNew | Op::Load, ObjectState::Loaded) => Ok(ObjectState::Running),
            (Op::InPlace, ObjectState::Running) => Ok(ObjectState::InPlaceActive),
            (Op::UiActivate(_), ObjectState::InPlaceActive) => Ok(ObjectState::UiActive),
            (Op::UiDeactivate, ObjectState::UiActive) => Ok(ObjectState::InPlaceActive),
            (Op::InPlaceDeactivate, ObjectState::InPlaceActive | ObjectState::Open) => {
                Ok(ObjectState::Running)
            }
            (Op::OpenWindow, ObjectState::Running) => Ok(ObjectState::Open),
            (Op::Close(_), ObjectState::Running) => Ok(ObjectState::Passive),
            (
                Op::Edit
                | Op::Save(_)
                | Op::HandsOff
                | Op::SaveCompleted { .. }
                | Op::SaveDropped(_),
                ObjectState::Running
                | ObjectState::InPlaceActive
                | ObjectState::UiActive
                | ObjectState::Open,
            ) => Ok(self),
            _ => Err(StateFault::WrongState),
        }
    }
}
