//! Why a server refuses an operation.

ghost use Rattle.std.specs.Prelude.{◌≡◌};
ghost use Rattle.message_values.specs.Refusals.{code_of, of_state};

use object_state::StateFault;

/// Why a server refuses an operation: by the object, or by the tables of states.
#[derive(Clone, Copy)]
pub enum Refusal {
    /// The object doesn't know the edit.
    BadEdit,
    /// The object doesn't take the content.
    BadContent,
    /// The edit makes the object too big.
    TooBig,
    /// InitNew or Load of an object that has a storage.
    AlreadyInitialized,
    /// Another operation on an object without storage.
    NotInitialized,
    /// Save while a save is under way.
    Scribble,
    /// Save or HandsOff where the storage is given away.
    HandsOff,
    /// SaveCompleted without storage where it was given away.
    NeedsStorage,
    /// An operation that the state doesn't take.
    WrongState,
}

impl Refusal {
    /// The code by which it stands in messages: 1 to 3 for the object's, 11 to 16 for the tables'.
    pub fn code(self) -> u8
        ensures { result ≡ code_of self }
    {
        match self {
            Refusal::BadEdit => 1,
            Refusal::BadContent => 2,
            Refusal::TooBig => 3,
            Refusal::AlreadyInitialized => 11,
            Refusal::NotInitialized => 12,
            Refusal::Scribble => 13,
            Refusal::HandsOff => 14,
            Refusal::NeedsStorage => 15,
            Refusal::WrongState => 16,
        }
    }

    /// The refusal by the tables of states.
    pub fn of_state(fault: StateFault) -> Refusal
        ensures { result ≡ of_state fault }
    {
        match fault {
            StateFault::AlreadyInitialized => Refusal::AlreadyInitialized,
            StateFault::NotInitialized => Refusal::NotInitialized,
            StateFault::Scribble => Refusal::Scribble,
            StateFault::HandsOff => Refusal::HandsOff,
            StateFault::NeedsStorage => Refusal::NeedsStorage,
            StateFault::WrongState => Refusal::WrongState,
        }
    }
}
