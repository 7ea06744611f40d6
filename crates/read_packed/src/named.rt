//! Entries whose names were read.

ghost use Rattle.cfb_names.specs.Names.{IsName};
ghost use Rattle.cfb_entries.specs.Entries.{IsNamed, child, class_of, first_of, kind, left, right, size_of, state_of};
ghost use Rattle.read_packed.specs.Named.{HoldsName, IsSound, characters_of, laid_out, named_bytes};
ghost use Rattle.std.specs.Prelude.{◌*◌, ◌+◌, ◌++◌, ◌≡◌, ◌≤◌, ◌∷◌, IfSome, length, replicate, take, true};

use cfb_bytes::numbers::read_u32;
use cfb_entries::entries::{Entry, EntryKind};
use cfb_names::name::Name;
use std::marker::Model;
use std::simd::prelude::*;

/// An entry with a name that an entry may have, and with no class id, no state bits and no times, as that of a stream
/// is: its name, what stands from the name's length to the links, and where its stream lies. All else of it is zero.
#[derive(Drop)]
pub struct Named {
    name: Name,
    head: [u8; 16],
    place: [u8; 7],
}

/// Whether the first of these characters, so many, are a name, and the others zeros.
#[inline(always)]
fn holds_name(characters: u8x32, count: u8) -> bool
    requires { count ≤ 31 }
    ensures { result ≡ true → HoldsName characters count }
{
    let places = u8x32::from_array([
        0, 1, 2, 3, 4, 5, 6, 7, 8, 9, 10, 11, 12, 13, 14, 15, 16, 17, 18, 19, 20, 21, 22, 23, 24,
        25, 26, 27, 28, 29, 30, 31,
    ]);
    let inside = places.simd_lt(u8x32::splat(count));
    let filled = characters.simd_ne(u8x32::splat(0));
    let slash = characters.simd_eq(u8x32::splat(b'/'));
    let backslash = characters.simd_eq(u8x32::splat(b'\\'));
    let colon = characters.simd_eq(u8x32::splat(b':'));
    let mark = characters.simd_eq(u8x32::splat(b'!'));
    let past = characters.simd_ge(u8x32::splat(128));
    let wrong = inside ^ filled | slash | backslash | colon | mark | past;
    wrong.to_bitmask() == 0
}

/// How a name lies that begins with these characters, so many.
#[inline(always)]
fn units_of(characters: u8x32, count: u8) -> [u8; 32]
    ensures { result ≡ count ∷ take 31 characters }
{
    characters
        .shuffle(
            u8x32::splat(count),
            [
                32, 0, 1, 2, 3, 4, 5, 6, 7, 8, 9, 10, 11, 12, 13, 14, 15, 16, 17, 18, 19, 20, 21,
                22, 23, 24, 25, 26, 27, 28, 29, 30,
            ],
        )
        .to_array()
}

/// The name of these characters, if it is one that an entry may have, as long as is said, and zeros stand behind it.
#[inline(always)]
pub(crate) fn name_of(characters: u8x32, len: u16) -> Option<Name>
    ensures { IfSome result (λ name. (len ≡ 2 * length name + 2) × (characters ≡ characters_of name)) }
{
    if len < 4 || len > 64 || len % 2 != 0 {
        return None;
    }
    let count = (len / 2 - 1) as u8;
    if !holds_name(characters, count) {
        return None;
    }
    Some(Name::from_units(units_of(characters, count)))
}

impl Model for Named {
    ghost use Rattle.read_packed.specs.Named.{IsSound, NamedValue};

    ghost Value = { NamedValue };

    ghost view = { λ n. record { name = n.name; head = n.head; place = n.place } };

    ghost invariant = { λ n. IsSound (record { name = n.name; head = n.head; place = n.place }) };
}

impl Named {
    ghost use Rattle.cfb_bytes.specs.Bytes.{u16_at};
    ghost use Rattle.cfb_entries.specs.Entries.{IsNamed, child, class_of, first_of, kind, left, right, size_of};
    ghost use Rattle.cfb_entries.specs.Entries.{state_of};
    ghost use Rattle.read_packed.specs.Named.{characters_of, laid_out, named_bytes};
    ghost use Rattle.std.specs.Prelude.{◌*◌, ◌+◌, ◌++◌, ◌≡◌, length, replicate};

    /// The entry of a name, whose head says how long it is.
    pub(crate) fn new(name: Name, head: [u8; 16], place: [u8; 7]) -> Named
        requires { u16_at head 0 ≡ 2 * length name + 2 }
        ensures { result ≡ record { name = name; head = head; place = place } }
    {
        Named { name, head, place }
    }

    /// The characters of its name with zeros behind them, its head, and where its stream lies.
    pub(crate) fn parts(&self) -> ([u8; 32], [u8; 16], [u8; 7])
        ensures { result ≡ (characters_of self.now.name, self.now.head, self.now.place) }
    {
        let name = self.name.as_bytes();
        let mut characters = [0; 32];
        characters[..name.len()].copy_from_slice(name);
        (characters, self.head, self.place)
    }

    /// Its name.
    pub fn name(&self) -> &Name
        ensures named { IsNamed (named_bytes self.now) result.now }
        ensures valid { IsName result.now }
    {
        &self.name
    }

    /// The number of its kind.
    pub fn kind(&self) -> u8
        ensures { result ≡ kind (named_bytes self.now) }
    {
        self.head[2]
    }

    /// Its links to its siblings, the left one and the right one.
    pub fn links(&self) -> (u32, u32)
        ensures left { result.0 ≡ left (named_bytes self.now) }
        ensures right { result.1 ≡ right (named_bytes self.now) }
    {
        (read_u32(&self.head, 4), read_u32(&self.head, 8))
    }

    /// The sector with which its stream begins.
    pub fn first(&self) -> u32
        ensures { result ≡ first_of (named_bytes self.now) }
    {
        u32::from_le_bytes([self.place[0], self.place[1], self.place[2], self.place[3]])
    }

    /// How many bytes its stream has.
    pub fn size(&self) -> u32
        ensures { result ≡ size_of (named_bytes self.now) }
    {
        u32::from_le_bytes([self.place[4], self.place[5], self.place[6], 0])
    }

    /// What it says, given its kind.
    pub fn entry(&self, kind: EntryKind) -> Entry
        ensures name { IsNamed (named_bytes self.now) result.name }
        ensures valid { IsName result.name }
        ensures kind { result.kind ≡ kind }
        ensures class { result.class ≡ class_of (named_bytes self.now) }
        ensures state { result.state ≡ state_of (named_bytes self.now) }
        ensures child { result.child ≡ child (named_bytes self.now) }
        ensures first { result.first ≡ first_of (named_bytes self.now) }
        ensures size { result.size ≡ size_of (named_bytes self.now) }
    {
        Entry {
            name: self.name.copy(),
            kind,
            class: [0; 16],
            state: 0,
            child: read_u32(&self.head, 12),
            first: self.first(),
            size: self.size(),
        }
    }
}
