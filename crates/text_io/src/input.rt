//! Inputs, which are read whole.

ghost use Rattle.std.specs.Prelude.{◌≡◌, ◌≤◌, length, IfErr, IfOk, IfSome};
ghost use Rattle.text_io.specs.Input.{MayRefuseInput, most};

use std::alloc::Global;
use std::io::{ErrorKind, Read};
use thiserror::Error;

/// Why an input isn't read.
#[derive(Debug, Clone, Copy, Error)]
pub enum InputFault {
    /// A read fails.
    #[error("reading fails")]
    Unreadable,
    /// The input has more bytes than are taken.
    #[error("the input is too big")]
    TooBig,
    /// No memory was left.
    #[error("no memory is left")]
    NoMemory,
}

impl InputFault {
    ghost use Rattle.std.specs.Prelude.{◌≡◌};
    ghost use Rattle.text_io.specs.Faults.{input_fault_name};

    /// The fault's name, as it is printed.
    pub fn name(&self) -> &'static str
        ensures { result.now ≡ input_fault_name self.now }
    {
        match self {
            InputFault::Unreadable => "Unreadable",
            InputFault::TooBig => "TooBig",
            InputFault::NoMemory => "NoMemory",
        }
    }
}

/// The most bytes that an input may have.
const MOST: u64 = 134_217_728;

/// All bytes that a reader gives, of which there may be `MOST`.
pub fn read_all<R: Read>(alloc: Global, reader: &mut R) -> Result<Vec<u8>, InputFault>
    ensures whole { IfOk result (λ bytes. IfSome (R.remaining reader.old) (λ input. bytes.items ≡ input)) }
    ensures few { IfOk result (λ bytes. length bytes.items ≤ most) }
    ensures within { IfOk result (λ _. IfSome (R.remaining reader.old) (λ input. length input ≤ most)) }
    ensures refused { IfErr result (λ fault. IfSome (R.remaining reader.old) (λ input. MayRefuseInput input fault)) }
{
    let mut bytes = Vec::new(alloc);
    let mut limited = reader.take(MOST + 1);
    match limited.read_to_end(&mut bytes) {
        Ok(_) => {}
        Err(error) => {
            return match error.kind() {
                ErrorKind::OutOfMemory => Err(InputFault::NoMemory),
                _ => Err(InputFault::Unreadable),
            };
        }
    }
    if bytes.len() as u64 > MOST {
        return Err(InputFault::TooBig);
    }
    Ok(bytes)
}
