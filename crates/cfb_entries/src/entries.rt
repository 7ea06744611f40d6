//! What entries of the directory say (MS-CFB 2.6).

use cfb_names::name::Name;

/// How many bytes an entry has.
pub const ENTRY_LEN: usize = 128;

/// The value of a link to nobody.
pub const NO_STREAM: u32 = 0xffff_ffff;

/// What an entry is.
#[derive(Clone, Copy, PartialEq, Eq)]
pub enum EntryKind {
    Storage,
    Stream,
    Root,
}

/// What an entry of the directory says. The size is in bytes.
#[derive(Drop)]
pub struct Entry {
    pub name: Name,
    pub kind: EntryKind,
    pub class: [u8; 16],
    pub state: u32,
    pub child: u32,
    pub first: u32,
    pub size: u32,
}

/// What an entry says besides its name. The size is in bytes; links to nobody are 0xFFFFFFFF.
#[derive(Clone, Copy)]
pub struct EntryFields {
    pub kind: EntryKind,
    pub left: u32,
    pub right: u32,
    pub child: u32,
    pub class: [u8; 16],
    pub state: u32,
    pub first: u32,
    pub size: u32,
}
