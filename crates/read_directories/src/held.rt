//! The bytes of a directory, however they are held in memory.

ghost use Rattle.cfb_bytes.specs.Bytes.{u32_at};
ghost use Rattle.cfb_entries.specs.Entries.{entry_at};
ghost use Rattle.read_directories.specs.Held.{held};
ghost use Rattle.read_packed.specs.Named.{named_bytes};
ghost use Rattle.std.specs.Prelude.{◌*◌, ◌+◌, ◌/◌, ◌<◌, ◌≡◌, ◌≤◌, IfSome, false, length, true};

use crate::bytes::{entry_bytes, entry_u32, whole_entry};
use cfb_entries::entries::ENTRY_LEN;
use read_packed::named::Named;
use read_packed::packed::PackedEntries;

/// The bytes of a directory.
#[derive(Clone, Copy)]
pub enum Directory<'a> {
    /// As they stand in the file.
    Bytes(&'a [u8]),
    /// As entries that take less memory.
    Packed(&'a PackedEntries),
}

impl<'a> Directory<'a> {
    /// How many whole entries there are.
    pub(crate) fn count(&self) -> usize
        ensures { result ≡ length (held self.now) / 128 }
    {
        match self {
            Directory::Bytes(bytes) => bytes.len() / ENTRY_LEN,
            Directory::Packed(entries) => entries.count(),
        }
    }

    /// Whether an entry begins in it.
    pub(crate) fn has(&self, id: u32) -> bool
        ensures there { result ≡ true → 128 * id < length (held self.now) }
        ensures past { result ≡ false → length (held self.now) ≤ 128 * id }
    {
        match self {
            Directory::Bytes(bytes) => ENTRY_LEN * (id as usize) < bytes.len(),
            Directory::Packed(entries) => (id as usize) < entries.count(),
        }
    }

    /// The bytes of an entry, with zeros past the end.
    pub(crate) fn entry_bytes(&self, id: u32) -> [u8; 128]
        requires { 128 * id < length (held self.now) }
        ensures { result ≡ entry_at (held self.now) id }
    {
        match self {
            Directory::Bytes(bytes) => entry_bytes(bytes, id),
            Directory::Packed(entries) => entries.entry(id as usize),
        }
    }

    /// The bytes of an entry where they stand, if all of them stand there.
    pub(crate) fn whole_entry(&self, id: u32) -> Option<&'a [u8; 128]>
        ensures bytes { IfSome result (λ entry. entry.now ≡ entry_at (held self.now) id) }
        ensures there { IfSome result (λ entry. 128 * id < length (held self.now)) }
    {
        match self {
            Directory::Bytes(bytes) => whole_entry(bytes, id),
            Directory::Packed(_) => None,
        }
    }

    /// An entry whose name was read as it was packed.
    #[inline(always)]
    pub(crate) fn named(&self, id: u32) -> Option<&'a Named>
        ensures there { IfSome result (λ _. 128 * id < length (held self.now)) }
        ensures bytes { IfSome result (λ n. named_bytes n.now ≡ entry_at (held self.now) id) }
    {
        match self {
            Directory::Bytes(_) => None,
            Directory::Packed(entries) => entries.named(id as usize),
        }
    }

    /// The number in four bytes of an entry.
    pub(crate) fn entry_u32(&self, id: u32, at: usize) -> u32
        requires there { 128 * id < length (held self.now) }
        requires within { at + 4 ≤ 128 }
        ensures { result ≡ u32_at (entry_at (held self.now) id) at }
    {
        match self {
            Directory::Bytes(bytes) => entry_u32(bytes, id, at),
            Directory::Packed(entries) => entries.number(id as usize, at),
        }
    }
}
