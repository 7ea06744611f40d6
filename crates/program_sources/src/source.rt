//! What gives the bytes of a file, however it is read.

ghost use Rattle.program_sources.specs.Known.{known_bytes};
ghost use Rattle.std.specs.Prelude.{◌≡◌, IfErr, IfOk, IfSome, Some};
ghost use Rattle.text_io.specs.Input.{MayRefuseInput};

use read_source::source::{Sought, Source};
use std::alloc::Global;
use std::io::{self, Read, Seek};
use text_io::input::{InputFault, read_all};

/// A file that a command reads.
#[derive(Drop)]
pub enum FileSource<F> {
    /// An open file: of its bytes those are read that are asked for. What it holds isn't known to a contract.
    Placed(Sought<F>),
    /// All bytes of one that can't be sought in, as a pipe.
    Whole(Vec<u8>),
}

impl<F: Read + Seek> Source for FileSource<F> {
    ghost use Rattle.program_sources.specs.Known.{known_bytes};

    ghost bytes = { known_bytes };

    fn size(&mut self) -> io::Result<u64> {
        match self {
            FileSource::Placed(file) => file.size(),
            FileSource::Whole(bytes) => bytes.as_slice().size(),
        }
    }

    fn read_at(&mut self, at: u64, buf: &mut [u8]) -> io::Result<()> {
        match self {
            FileSource::Placed(file) => file.read_at(at, buf),
            FileSource::Whole(bytes) => bytes.as_slice().read_at(at, buf),
        }
    }
}

/// A file that is read to its end.
///
/// Refused: as `read_all`.
pub fn read_source<F: Read + Seek>(alloc: Global, file: &mut F) -> Result<FileSource<F>, InputFault>
    ensures whole { IfOk result (λ source. IfSome (F.remaining file.old) (λ bytes. known_bytes source ≡ Some bytes)) }
    ensures refused { IfErr result (λ fault. IfSome (F.remaining file.old) (λ bytes. MayRefuseInput bytes fault)) }
{
    match read_all(alloc, file) {
        Ok(bytes) => Ok(FileSource::Whole(bytes)),
        Err(fault) => Err(fault),
    }
}
