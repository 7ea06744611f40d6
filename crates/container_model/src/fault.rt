//! Why a container refuses.

use thiserror::Error;

/// Why a container refuses a command, a message or a commit's result. A refused one changes nothing.
#[derive(Debug, Clone, Copy, Error)]
pub enum ContainerFault {
    /// There is no such frame, object or server.
    #[error("there is no such frame, object or server")]
    NoSuch,
    /// The frame or the object is busy, or the name is another frame's.
    #[error("the frame or the object is busy")]
    Busy,
    /// The object isn't running.
    #[error("the object isn't running")]
    NotRunning,
    /// A commit of the frame is in doubt.
    #[error("a commit of the frame is in doubt")]
    InDoubt,
    /// The message isn't one of its link.
    #[error("the message isn't one of its link")]
    WrongLink,
    /// The message is of something that is over.
    #[error("the message is of something that is over")]
    Stale,
    /// There is no room for one more.
    #[error("there is no room for one more")]
    Full,
    /// The numbers are spent.
    #[error("the numbers are spent")]
    NumbersSpent,
    /// The state doesn't take it, or a size isn't one that is taken.
    #[error("the state or the size doesn't take it")]
    WrongState,
    /// The file isn't a document.
    #[error("the file isn't a document")]
    BadFile,
    /// The answer doesn't fit the call.
    #[error("the answer doesn't fit the call")]
    BadAnswer,
    /// The class isn't one of the three kinds.
    #[error("the class isn't one of the three kinds")]
    UnknownClass,
    /// No memory was left.
    #[error("no memory is left")]
    NoMemory,
}

impl ContainerFault {
    ghost use Rattle.std.specs.Prelude.{◌≡◌};
    ghost use Rattle.container_model.specs.FaultNames.{fault_name};

    /// The fault's name, as it is printed.
    pub fn name(&self) -> &'static str
        ensures { result.now ≡ fault_name self.now }
    {
        match self {
            ContainerFault::NoSuch => "NoSuch",
            ContainerFault::Busy => "Busy",
            ContainerFault::NotRunning => "NotRunning",
            ContainerFault::InDoubt => "InDoubt",
            ContainerFault::WrongLink => "WrongLink",
            ContainerFault::Stale => "Stale",
            ContainerFault::Full => "Full",
            ContainerFault::NumbersSpent => "NumbersSpent",
            ContainerFault::WrongState => "WrongState",
            ContainerFault::BadFile => "BadFile",
            ContainerFault::BadAnswer => "BadAnswer",
            ContainerFault::UnknownClass => "UnknownClass",
            ContainerFault::NoMemory => "NoMemory",
        }
    }
}
