//! Numbers written into the bytes of a file, least byte first.

ghost use Rattle.std.specs.Int.{to_le_bytes, w16, w32};
ghost use Rattle.std.specs.Prelude.{◌+◌, ◌++◌, ◌≡◌, ◌≤◌, drop, length, take};

use byteorder::{ByteOrder, LittleEndian};

/// Writes a number into the two bytes at a place.
pub(crate) fn write_u16(bytes: &mut [u8], at: usize, n: u16)
    requires { at + 2 ≤ length bytes.old }
    ensures { bytes.new ≡ take at bytes.old ++ to_le_bytes w16 n ++ drop (at + 2) bytes.old }
{
    LittleEndian::write_u16(&mut bytes[at..at + 2], n);
}

/// Writes a number into the four bytes at a place.
pub(crate) fn write_u32(bytes: &mut [u8], at: usize, n: u32)
    requires { at + 4 ≤ length bytes.old }
    ensures { bytes.new ≡ take at bytes.old ++ to_le_bytes w32 n ++ drop (at + 4) bytes.old }
{
    LittleEndian::write_u32(&mut bytes[at..at + 4], n);
}
