//! Where the entries of a directory lead, which its writer keeps until they are sent.

ghost use Rattle.std.specs.Prelude.{◌≡◌, ◌<◌, ◌^◌, length};

use cfb_entries::entries::EntryFields;

/// Where an entry leads: to its siblings on both sides, and down to a stream's first sector or to the child on top of a
/// storage.
#[derive(Clone, Copy)]
pub struct Lead {
    pub left: u32,
    pub right: u32,
    pub down: u32,
}

/// What the root's entry says, and where the others lead, in the order in which they stand.
#[derive(Drop)]
pub struct Directory {
    pub root: EntryFields,
    pub leads: Vec<Lead>,
}

/// The bytes of a class id, of which there are 16.
pub fn class_bytes(bytes: &[u8; 16]) -> [u8; 16]
    ensures same { result ≡ bytes.now }
    ensures len { length bytes.now ≡ 16 }
{
    *bytes
}

/// State bits, which have four bytes.
pub fn state_bits(state: u32) -> u32
    ensures same { result ≡ state }
    ensures fits { state < 2 ^ 32 }
{
    state
}
