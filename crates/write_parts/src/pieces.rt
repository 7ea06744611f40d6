//! Bytes on their way to a writer, of which a few wait before they are written.

ghost use Rattle.write_parts.specs.Sends.{Sends};
ghost use Rattle.std.specs.Int.{to_le_bytes, w32};
ghost use Rattle.std.specs.Io.KnownBytes.{Appends};
ghost use Rattle.std.specs.List.{flat_map};
ghost use Rattle.std.specs.Prelude.{[], ◌+◌, ◌++◌, ◌<◌, ◌≡◌, ◌≤◌, OnOk, drop, length, replicate, take};

use std::alloc::AllocError;
use std::io::{self, Write};

/// How many bytes are written at once: where as many wait, they are written before more join them.
pub const PIECE: usize = 65536;

/// Room for all that may wait, of which the last bytes are fewer than a piece.
pub const ROOM: usize = 2 * PIECE;

/// How many numbers are put into bytes at once.
const NUMBERS: usize = 64;

/// Writes bytes.
fn write<W: Write>(writer: &mut W, bytes: &[u8]) -> io::Result<()>
    ensures { OnOk result (Appends (W.contents writer.old) (W.contents writer.new) bytes.now) }
{
    writer.write_all(bytes)?;
    Ok(())
}

/// Writes the bytes that wait, so that none do.
fn write_waiting<W: Write>(writer: &mut W, waiting: &mut Vec<u8>) -> io::Result<()>
    ensures written { OnOk result (Appends (W.contents writer.old) (W.contents writer.new) waiting.old.items) }
    ensures none { OnOk result (waiting.new.items ≡ []) }
{
    write(writer, waiting.as_slice())?;
    waiting.clear();
    Ok(())
}

/// Writes bytes, and all through to the writer's end.
pub fn finish<W: Write>(writer: &mut W, bytes: &[u8]) -> io::Result<()>
    ensures { OnOk result (Appends (W.contents writer.old) (W.contents writer.new) bytes.now) }
{
    writer.write_all(bytes)?;
    writer.flush()?;
    Ok(())
}

/// Writes what waits where that is a whole piece. In the room that was taken for it, what is put there next needs no
/// memory.
pub fn make_room<W: Write>(writer: &mut W, waiting: &mut Vec<u8>) -> io::Result<()>
    ensures { OnOk result (Sends (W.contents writer.old) (W.contents writer.new) waiting.old.items waiting.new.items
        []) }
{
    if waiting.len() < PIECE {
        return Ok(());
    }
    write_waiting(writer, waiting)
}

/// Lets bytes wait behind others, or writes them all where they are a piece or more.
pub fn send<W: Write>(writer: &mut W, waiting: &mut Vec<u8>, bytes: &[u8]) -> io::Result<()>
    ensures { OnOk result (Sends (W.contents writer.old) (W.contents writer.new) waiting.old.items waiting.new.items
        bytes.now) }
{
    if bytes.len() >= PIECE {
        write_waiting(writer, waiting)?;
        write(writer, bytes)?;
        return Ok(());
    }
    make_room(writer, waiting)?;
    waiting.extend_from_slice(bytes)?;
    Ok(())
}

/// Sends zero bytes.
pub fn send_zeros<W: Write>(writer: &mut W, waiting: &mut Vec<u8>, count: usize) -> io::Result<()>
    requires { count < 512 }
    ensures { OnOk result (Sends (W.contents writer.old) (W.contents writer.new) waiting.old.items waiting.new.items
        (replicate count 0)) }
{
    if count == 0 {
        return Ok(());
    }
    let zeros = [0; 512];
    send(writer, waiting, &zeros[..count])?;
    Ok(())
}

/// Adds bytes and a few zeros behind them.
pub fn push_padded(waiting: &mut Vec<u8>, bytes: &[u8], count: usize) -> Result<(), AllocError>
    requires { count < 64 }
    ensures { OnOk result (waiting.new.items ≡ waiting.old.items ++ (bytes.now ++ replicate count 0)) }
{
    let zeros = [0; 64];
    waiting.extend_from_slice(bytes)?;
    waiting.extend_from_slice(&zeros[..count])?;
    Ok(())
}

/// Writes a number into the four bytes at a place.
fn write_number(bytes: &mut [u8], at: usize, n: u32)
    requires { at + 4 ≤ length bytes.old }
    ensures { bytes.new ≡ take at bytes.old ++ to_le_bytes w32 n ++ drop (at + 4) bytes.old }
{
    let number = n.to_le_bytes();
    bytes[at] = number[0];
    bytes[at + 1] = number[1];
    bytes[at + 2] = number[2];
    bytes[at + 3] = number[3];
}

/// Adds as many numbers as are sent at once, or fewer.
fn push_numbers(waiting: &mut Vec<u8>, numbers: &[u32]) -> Result<(), AllocError>
    requires { length numbers.now ≤ 64 }
    ensures { OnOk result (waiting.new.items ≡ waiting.old.items ++ flat_map (to_le_bytes w32) numbers.now) }
{
    let mut bytes = [0; 256];
    for k in 0..numbers.len() {
        write_number(&mut bytes, 4 * k, numbers[k]);
    }
    waiting.extend_from_slice(&bytes[..4 * numbers.len()])?;
    Ok(())
}

/// Sends numbers, each in four bytes, least byte first.
pub fn send_numbers<W: Write>(
    writer: &mut W,
    waiting: &mut Vec<u8>,
    numbers: &[u32],
) -> io::Result<()>
    ensures { OnOk result (Sends (W.contents writer.old) (W.contents writer.new) waiting.old.items waiting.new.items
        (flat_map (to_le_bytes w32) numbers.now)) }
{
    let mut at = 0;
    while at < numbers.len() {
        let end = (at + NUMBERS).min(numbers.len());
        make_room(writer, waiting)?;
        push_numbers(waiting, &numbers[at..end])?;
        at = end;
    }
    Ok(())
}
