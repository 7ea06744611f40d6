//! The bytes of streams, on their way to the files of a folder.

ghost use Rattle.folder_commands.specs.Streams.{bytes_in};
ghost use Rattle.std.specs.Io.KnownBytes.{Appends};
ghost use Rattle.std.specs.Prelude.{◌≡◌, IfSome, OnOk, length};

use read_source::source::Source;
use read_streams::blocks::Lies;
use read_streams::copying::copy_blocks;
use read_streams::fault::CopyFault;
use std::alloc::Global;
use std::io::Write;
use text_io::output::write_all;

/// The bytes of a stream of a file.
#[derive(Drop)]
pub enum Stream {
    /// These, which were read.
    Held(Vec<u8>),
    /// Those that lie there.
    Lies(Lies),
}

/// Copies the bytes of a stream, of a file of so many bytes, a piece of at most 65,536 at a time.
///
/// Refused: `Unreadable` where a read fails, `Unwritable` where a write does, `NoMemory`. Some of the bytes may be
/// written then.
pub fn copy_stream<S: Source, W: Write>(
    alloc: Global,
    source: &mut S,
    len: usize,
    stream: &Stream,
    writer: &mut W,
) -> Result<(), CopyFault>
    ensures written { OnOk result (IfSome (S.bytes source.old) (λ a. length a ≡ len
        → Appends (W.contents writer.old) (W.contents writer.new) (bytes_in a stream.now))) }
    ensures kept { S.bytes source.new ≡ S.bytes source.old }
{
    match stream {
        Stream::Held(bytes) => match write_all(writer, bytes) {
            Ok(()) => Ok(()),
            Err(_) => Err(CopyFault::Unwritable),
        },
        Stream::Lies(lies) => copy_blocks(alloc, source, len, &lies.blocks, lies.size, writer),
    }
}
