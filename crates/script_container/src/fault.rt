//! Why a script isn't carried out.

use std::alloc::AllocError;
use store_model::fault::StoreFault;
use text_io::input::InputFault;
use text_io::lines::SyntaxFault;
use thiserror::Error;

/// Why a script isn't carried out to its end.
#[derive(Debug, Drop, Error)]
pub enum ScriptFault {
    /// The script isn't read.
    #[error("{0}")]
    Input(InputFault),
    /// A line of the script is refused.
    #[error("line {0}: {1}")]
    Line(usize, SyntaxFault),
    /// A server isn't started.
    #[error("server {0} isn't started")]
    Link(u32),
    /// What is asked of servers isn't answered, or what one answers is still held.
    #[error("what is asked isn't answered")]
    Stalled,
    /// The file of this name can't be opened, so that it isn't known whether a save of it was kept.
    #[error("a file can't be opened: {1}")]
    File(Vec<u8>, StoreFault),
    /// No memory was left.
    #[error("no memory is left")]
    NoMemory,
    /// A write fails.
    #[error("writing fails")]
    Unwritable,
}

impl From<AllocError> for ScriptFault {
    ghost use Rattle.std.specs.Prelude.{◌≡◌};
    ghost use Rattle.script_container.specs.declared.fault.ScriptFault.TheVariants.{NoMemory};

    ghost from_gives = { λ _ e. e ≡ NoMemory };

    fn from(_: AllocError) -> Self {
        ScriptFault::NoMemory
    }
}
