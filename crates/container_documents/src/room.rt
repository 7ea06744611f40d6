//! The room that a frame's document needs in a file, reckoned without memory.

ghost use Rattle.std.specs.Prelude.{◌+◌, ◌≡◌, ◌<◌, is_ok, length, min, nat_le, true};
ghost use Rattle.container_model.specs.Saves.{document_tree, held_part, held_parts, is_document, part_of, parts_in};
ghost use Rattle.container_documents.specs.Sums.{IsTyped, comp_obj_size, long_of, object_sum, one, one_of, picture_of};
ghost use Rattle.container_documents.specs.Sums.{session_of, short_of, streams_sum};
ghost use Rattle.cfb_file.specs.Limits.{MOST_FAT_SECTORS};
ghost use Rattle.cfb_file.specs.Need.{fat_sectors as fat_needed, long_pieces, needed, short_pieces};
ghost use Rattle.cfb_file.specs.Refusals.{writable};
ghost use Rattle.cfb_file.specs.declared.limit.TheConstants.{MANY};
ghost use Rattle.ole_model.specs.CompObjs.{CLASS_BYTES, PAST_USER_TYPE};

use cfb_file::limit::{CUTOFF, MANY, MOST_FAT_SECTORS};
use cfb_file::need::fat_sectors;
use container_checks::contents::kept;
use container_model::record::Object;
use tree_streams::streams::NamedStream;

/// How many bytes `\1Ole` has (MS-OLEDS 2.3.3).
const OLE_SIZE: usize = 20;

/// How many bytes `Session` has.
const SESSION_SIZE: usize = 4;

/// How many entries, mini sectors and sectors of long streams are needed. Each is counted up to the bound.
#[derive(Drop)]
struct Room {
    entries: usize,
    minis: usize,
    longs: usize,
}

/// A count with so many more.
fn more(count: usize, more: usize) -> usize
    ensures { result ≡ min MANY (count + more) }
{
    count.saturating_add(more).min(MANY as usize)
}

/// How many mini sectors a stream of so many bytes takes.
fn minis_of(size: usize) -> usize
    ensures { result ≡ short_of size }
{
    if size < CUTOFF { size.div_ceil(64) } else { 0 }
}

/// How many sectors of its own a stream of so many bytes takes.
fn longs_of(size: usize) -> usize
    ensures { result ≡ long_of size }
{
    if size < CUTOFF { 0 } else { size.div_ceil(512) }
}

/// How many bytes `\1CompObj` has for a user type of so many bytes (MS-OLEDS 2.3.8).
fn comp_obj_size(user_type: usize) -> usize
    requires { user_type < PAST_USER_TYPE }
    ensures { result ≡ comp_obj_size user_type }
{
    if user_type == 0 { 40 } else { 41 + user_type }
}

/// A class id has 16 bytes.
fn class_is_whole(bytes: &[u8; 16])
    ensures { length bytes.now ≡ CLASS_BYTES }
{
    let _bytes = *bytes;
}

/// What the types of an object's values promise.
fn is_typed(object: &Object)
    ensures { IsTyped (held_part (part_of object.now)) }
{
    class_is_whole(object.class.as_bytes());
    let _ = kept(object).streams.as_slice();
}

impl Room {
    /// Nothing is needed.
    fn new() -> Room
        ensures entries { result.entries ≡ 0 }
        ensures minis { result.minis ≡ 0 }
        ensures longs { result.longs ≡ 0 }
    {
        Room {
            entries: 0,
            minis: 0,
            longs: 0,
        }
    }

    /// With one more storage.
    fn storage(self) -> Room
        ensures entries { min MANY result.entries ≡ min MANY (self.entries + 1) }
        ensures minis { result.minis ≡ self.minis }
        ensures longs { result.longs ≡ self.longs }
    {
        Room {
            entries: more(self.entries, 1),
            minis: self.minis,
            longs: self.longs,
        }
    }

    /// With one more stream, of so many bytes.
    fn stream(self, size: usize) -> Room
        ensures entries { min MANY result.entries ≡ min MANY (self.entries + 1) }
        ensures minis { min MANY result.minis ≡ min MANY (self.minis + short_of size) }
        ensures longs { min MANY result.longs ≡ min MANY (self.longs + long_of size) }
    {
        Room {
            entries: more(self.entries, 1),
            minis: more(self.minis, minis_of(size)),
            longs: more(self.longs, longs_of(size)),
        }
    }

    /// With these streams.
    fn streams(self, streams: &[NamedStream]) -> Room
        ensures entries { min MANY result.entries ≡ min MANY (self.entries + streams_sum one streams.now) }
        ensures minis { min MANY result.minis ≡ min MANY (self.minis + streams_sum short_pieces streams.now) }
        ensures longs { min MANY result.longs ≡ min MANY (self.longs + streams_sum long_pieces streams.now) }
    {
        let mut room = self;
        for stream in streams {
            room = room.stream(stream.bytes.len());
        }
        room
    }

    /// With a picture, which has no stream where it is empty.
    fn picture(self, size: usize) -> Room
        ensures entries { min MANY result.entries ≡ min MANY (self.entries + picture_of one_of size) }
        ensures minis { min MANY result.minis ≡ min MANY (self.minis + picture_of short_of size) }
        ensures longs { min MANY result.longs ≡ min MANY (self.longs + picture_of long_of size) }
    {
        if size == 0 { self } else { self.stream(size) }
    }

    /// With a session, which has no stream where it is 0.
    fn session(self, session: u32) -> Room
        ensures entries { min MANY result.entries ≡ min MANY (self.entries + session_of one_of session) }
        ensures minis { min MANY result.minis ≡ min MANY (self.minis + session_of short_of session) }
        ensures longs { min MANY result.longs ≡ min MANY (self.longs + session_of long_of session) }
    {
        if session == 0 {
            self
        } else {
            self.stream(SESSION_SIZE)
        }
    }

    /// With an object's storage and its streams.
    fn object(self, object: &Object) -> Room
        requires { length object.now.user_type < PAST_USER_TYPE }
        ensures entries { min MANY result.entries
            ≡ min MANY (self.entries + object_sum one 1 (held_part (part_of object.now))) }
        ensures minis { min MANY result.minis
            ≡ min MANY (self.minis + object_sum short_pieces 0 (held_part (part_of object.now))) }
        ensures longs { min MANY result.longs
            ≡ min MANY (self.longs + object_sum long_pieces 0 (held_part (part_of object.now))) }
        ensures typed { IsTyped (held_part (part_of object.now)) }
    {
        is_typed(object);
        let stored = kept(object);
        let own = self.storage().streams(stored.streams.as_slice());
        let linked = own.stream(OLE_SIZE);
        let named = linked.stream(comp_obj_size(object.user_type.len()));
        named.picture(stored.picture.len())
    }

    /// Whether the least FAT that covers it is within the limit.
    fn fits(self) -> bool
        ensures { result ≡ nat_le
            (fat_needed (needed (min MANY self.entries) (min MANY self.minis) (min MANY self.longs)))
            MOST_FAT_SECTORS }
    {
        let entries = self.entries.min(MANY as usize);
        let minis = self.minis.min(MANY as usize);
        let longs = self.longs.min(MANY as usize);
        let tables = (1 + entries).div_ceil(4) + minis.div_ceil(128);
        let sectors = tables + (64 * minis).div_ceil(512) + longs;
        fat_sectors(sectors as u32) <= MOST_FAT_SECTORS
    }
}

/// Whether a file has room for the document of a frame, of this session. It takes no memory.
pub(crate) fn has_room(session: u32, f: u32, objects: &[Object]) -> bool
    requires { is_document (held_parts (parts_in f objects.now)) ≡ true }
    ensures { result ≡ is_ok (writable (document_tree (record { session = session; parts = parts_in f objects.now }))) }
{
    let mut room = Room::new();
    let mut count: usize = 0;
    for object in objects {
        if object.frame == f {
            room = room.object(object);
            count += 1;
        }
    }
    room.session(session).stream(8 + 8 * count).fits()
}
