//! Why a server takes no message.

use std::alloc::AllocError;
use thiserror::Error;

/// Why a server takes no message.
#[derive(Debug, Clone, Copy, Error)]
pub enum ServerFault {
    /// A call of another session, or for another incarnation.
    #[error("the call is for another incarnation")]
    WrongIncarnation,
    /// A message that a server doesn't act on.
    #[error("nothing is to be done with the message")]
    Ignored,
    /// The server has as many activations as it may have, or an activation as many writes.
    #[error("the numbers are spent")]
    NumbersSpent,
    /// A call that makes an activation, without an object for it.
    #[error("the call needs an object")]
    NeedObject,
    /// A call that makes an activation, with an object of another class.
    #[error("the object is of another class")]
    WrongClass,
    /// No memory was left.
    #[error("no memory is left")]
    NoMemory,
}

impl ServerFault {
    ghost use Rattle.std.specs.Prelude.{◌≡◌};
    ghost use Rattle.server_model.specs.FaultNames.{fault_name};

    /// The fault's name, as it is printed.
    pub fn name(&self) -> &'static str
        ensures { result.now ≡ fault_name self.now }
    {
        match self {
            ServerFault::WrongIncarnation => "WrongIncarnation",
            ServerFault::Ignored => "Ignored",
            ServerFault::NumbersSpent => "NumbersSpent",
            ServerFault::NeedObject => "NeedObject",
            ServerFault::WrongClass => "WrongClass",
            ServerFault::NoMemory => "NoMemory",
        }
    }
}

impl From<AllocError> for ServerFault {
    ghost use Rattle.std.specs.Prelude.{◌≡◌};
    ghost use Rattle.server_model.specs.declared.fault.ServerFault.TheVariants.{NoMemory};

    ghost from_gives = { λ _ e. e ≡ NoMemory };

    fn from(_: AllocError) -> Self {
        ServerFault::NoMemory
    }
}
