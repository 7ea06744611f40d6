//! Writing entries of the directory (MS-CFB 2.6.1, 2.6.3).

ghost use Rattle.cfb_entries.specs.Entries.{kind_number};
ghost use Rattle.cfb_entries.specs.Written.{entry_bytes, free_entry_bytes, name_bytes};
ghost use Rattle.std.specs.Int.{to_le_bytes, w16, w32};
ghost use Rattle.std.specs.Prelude.{◌+◌, ◌++◌, ◌≡◌, ◌≤◌, OnOk, drop, length, replicate, take};

pub use cfb_entries::entries::EntryFields;
use cfb_entries::entries::{ENTRY_LEN, EntryKind};
use std::alloc::AllocError;

/// Writes a number into the two bytes at a place.
fn write_u16(bytes: &mut [u8], at: usize, n: u16)
    requires { at + 2 ≤ length bytes.old }
    ensures { bytes.new ≡ take at bytes.old ++ to_le_bytes w16 n ++ drop (at + 2) bytes.old }
{
    let number = n.to_le_bytes();
    bytes[at] = number[0];
    bytes[at + 1] = number[1];
}

/// Writes a number into the four bytes at a place.
fn write_u32(bytes: &mut [u8], at: usize, n: u32)
    requires { at + 4 ≤ length bytes.old }
    ensures { bytes.new ≡ take at bytes.old ++ to_le_bytes w32 n ++ drop (at + 4) bytes.old }
{
    let number = n.to_le_bytes();
    bytes[at] = number[0];
    bytes[at + 1] = number[1];
    bytes[at + 2] = number[2];
    bytes[at + 3] = number[3];
}

/// The number that stands for a kind.
fn number_of(kind: EntryKind) -> u8
    ensures { result ≡ kind_number kind }
{
    match kind {
        EntryKind::Storage => 1,
        EntryKind::Stream => 2,
        EntryKind::Root => 5,
    }
}

/// Writes a name in UTF-16 into zeros.
#[tactic(auto, unfolding(cfb_entries::specs::Written::name_bytes))]
fn write_name(bytes: &mut [u8], name: &[u8])
    requires zeros { bytes.old ≡ replicate 64 0 }
    requires short { length name.now ≤ 31 }
    ensures { bytes.new ≡ name_bytes name.now }
{
    for k in 0..name.len() {
        bytes[2 * k] = name[k];
    }
}

/// Writes a class id byte by byte, which costs less than a call.
fn write_class(bytes: &mut [u8], class: &[u8; 16])
    requires { length bytes.old ≡ 16 }
    ensures written { bytes.new ≡ class.now }
    ensures len { length class.now ≡ 16 }
{
    for k in 0..16 {
        bytes[k] = class[k];
    }
}

/// Adds an entry of 128 bytes with a name of at most 31 characters. It is black, and its times are zero.
///
/// Where no memory is left, nothing is added.
pub fn write_entry(out: &mut Vec<u8>, name: &[u8], fields: &EntryFields) -> Result<(), AllocError>
    requires { length name.now ≤ 31 }
    ensures { OnOk result (out.new.items ≡ out.old.items ++ entry_bytes name.now fields.now) }
{
    let mut entry = [0; ENTRY_LEN];
    write_u16(&mut entry, 64, 2 * name.len() as u16 + 2);
    entry[66] = number_of(fields.kind);
    entry[67] = 1;
    write_u32(&mut entry, 68, fields.left);
    write_u32(&mut entry, 72, fields.right);
    write_u32(&mut entry, 76, fields.child);
    write_u32(&mut entry, 96, fields.state);
    write_u32(&mut entry, 116, fields.first);
    write_u32(&mut entry, 120, fields.size);
    write_class(&mut entry[80..96], &fields.class);
    write_name(&mut entry[..64], name);
    out.extend_from_slice(&entry)
}

/// Adds an entry of 128 bytes that isn't used: zeros, but for three links to nobody.
///
/// Where no memory is left, nothing is added.
#[tactic(auto, unfolding(cfb_entries::specs::Written::free_entry_bytes))]
pub fn write_free_entry(out: &mut Vec<u8>) -> Result<(), AllocError>
    ensures { OnOk result (out.new.items ≡ out.old.items ++ free_entry_bytes) }
{
    let mut entry = [0; ENTRY_LEN];
    entry[68..80].copy_from_slice(&[0xff; 12]);
    out.extend_from_slice(&entry)
}
