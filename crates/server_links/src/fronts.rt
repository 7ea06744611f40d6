//! Writing what may be written in part, and reading what a signal may interrupt.

ghost use Rattle.server_links.specs.View.{AppendsFront};
ghost use Rattle.std.specs.Io.{ReadsAtMost};
ghost use Rattle.std.specs.Io.KnownBytes.{Appends, ReadConsumes};
ghost use Rattle.std.specs.Prelude.{IsTrue};

use std::io::{self, ErrorKind, Read, Write};

/// Writes bytes, and tells whether all of them were written. Else a front of them was.
pub(crate) fn write_front<W: Write>(writer: &mut W, bytes: &[u8]) -> bool
    ensures whole { IsTrue result → Appends (W.contents writer.old) (W.contents writer.new) bytes.now }
    ensures front { AppendsFront (W.contents writer.old) (W.contents writer.new) bytes.now }
{
    let mut at = 0;
    for _ in 0..u64::MAX {
        if at >= bytes.len() {
            return true;
        }
        match writer.write(&bytes[at..]) {
            Ok(0) => return false,
            Ok(n) => at += n,
            Err(error) => {
                if error.kind() != ErrorKind::Interrupted {
                    return false;
                }
            }
        }
    }
    false
}

/// Reads once, and again where a signal interrupted it, as of a process that was stopped and goes on.
pub(crate) fn read_again<R: Read>(reader: &mut R, into: &mut [u8]) -> io::Result<usize>
    ensures bound { ReadsAtMost result into.new }
    ensures bytes { ReadConsumes (R.remaining reader.old) (R.remaining reader.new) result into.new }
{
    for _ in 0..u64::MAX {
        match reader.read(into) {
            Ok(n) => return Ok(n),
            Err(error) => {
                if error.kind() != ErrorKind::Interrupted {
                    return Err(error);
                }
            }
        }
    }
    Err(ErrorKind::Interrupted.into())
}
