//! Numbers in the bytes of a file, least byte first.

ghost use Rattle.cfb_bytes.specs.Bytes.{u16_at, u32_at};
ghost use Rattle.std.specs.Prelude.{◌+◌, ◌≡◌, ◌≤◌, length};

use byteorder::{ByteOrder, LittleEndian};

/// The number in the two bytes at a place.
#[tactic(auto, unfolding(crate::specs::Bytes::u16_at))]
pub fn read_u16(bytes: &[u8], at: usize) -> u16
    requires { at + 2 ≤ length bytes.now }
    ensures { result ≡ u16_at bytes.now at }
{
    LittleEndian::read_u16(&bytes[at..])
}

/// The number in the four bytes at a place.
#[tactic(auto, unfolding(crate::specs::Bytes::u32_at))]
pub fn read_u32(bytes: &[u8], at: usize) -> u32
    requires { at + 4 ≤ length bytes.now }
    ensures { result ≡ u32_at bytes.now at }
{
    LittleEndian::read_u32(&bytes[at..])
}
