//! Numbers in the bytes of an entry.

ghost use Rattle.cfb_entries.specs.Entries.{entry_at};
ghost use Rattle.cfb_bytes.specs.Bytes.{u32_at};
ghost use Rattle.std.specs.Prelude.{◌≡◌, ◌≤◌, ◌<◌, ◌+◌, ◌-◌, ◌*◌, ◌++◌, length, replicate, IfSome};

use cfb_bytes::numbers::read_u32;
use cfb_entries::entries::ENTRY_LEN;

/// The bytes, with zeros behind them.
fn padded(part: &[u8]) -> [u8; 128]
    requires { length part.now ≤ 128 }
    ensures { result ≡ part.now ++ replicate (128 - length part.now) 0 }
{
    let mut entry = [0; ENTRY_LEN];
    entry[..part.len()].copy_from_slice(part);
    entry
}

/// The bytes of an entry of a directory, with zeros past its end.
#[tactic(auto, unfolding(cfb_bytes::specs::Bytes::block))]
pub(crate) fn entry_bytes(directory: &[u8], id: u32) -> [u8; 128]
    requires { 128 * id < length directory.now }
    ensures { result ≡ entry_at directory.now id }
{
    let start = ENTRY_LEN * id as usize;
    let end = directory.len().min(start + ENTRY_LEN);
    let part = &directory[start..end];
    match part.as_array::<ENTRY_LEN>() {
        Some(whole) => *whole,
        None => padded(part),
    }
}

/// The bytes of an entry where they stand, if all of them are in the directory.
#[tactic(auto, unfolding(cfb_bytes::specs::Bytes::block))]
pub(crate) fn whole_entry(directory: &[u8], id: u32) -> Option<&[u8; 128]>
    ensures bytes { IfSome result (λ entry. entry.now ≡ entry_at directory.now id) }
    ensures there { IfSome result (λ entry. 128 * id < length directory.now) }
{
    let start = ENTRY_LEN * id as usize;
    let end = start + ENTRY_LEN;
    if end > directory.len() {
        return None;
    }
    directory[start..end].as_array::<ENTRY_LEN>()
}

/// The number in four bytes of an entry.
pub(crate) fn entry_u32(directory: &[u8], id: u32, at: usize) -> u32
    requires there { 128 * id < length directory.now }
    requires within { at + 4 ≤ 128 }
    ensures { result ≡ u32_at (entry_at directory.now id) at }
{
    let place = ENTRY_LEN * id as usize + at;
    if place + 4 <= directory.len() {
        return read_u32(directory, place);
    }
    read_u32(&entry_bytes(directory, id), at)
}
