//! The entries of a directory in less memory than they take in a file.

ghost use Rattle.cfb_bytes.specs.Bytes.{block, u32_at};
ghost use Rattle.read_packed.specs.Named.{named_bytes, unit};
ghost use Rattle.read_packed.specs.Packed.{IsShort, entry_of, evens, odds, spelled};
ghost use Rattle.std.specs.List.{flat_map};
ghost use Rattle.std.specs.Prelude.{◌*◌, ◌+◌, ◌++◌, ◌≡◌, ◌≤◌, drop, length, replicate, take, true};

use crate::named::{Named, name_of};
use cfb_bytes::numbers::{read_u16, read_u32};
use std::alloc::{AllocError, Global};
use std::marker::Model;
use std::simd::prelude::*;

/// How many bytes an entry has.
const ENTRY_LEN: usize = 128;

/// How many characters there is room for in the name of an entry.
const NAME_LEN: usize = 32;

/// An entry with a name in ASCII and no class id, no state bits and no times, as that of a stream is: the lower bytes
/// of the characters of its name, what stands from the name's length to the links, and where its stream lies. All else
/// of it is zero.
#[derive(Clone, Copy)]
struct Short {
    name: [u8; 32],
    head: [u8; 16],
    place: [u8; 7],
}

/// An entry.
#[derive(Drop)]
enum Slot {
    /// One of which most bytes are zero.
    Packed(Short),
    /// One whose name was read as well.
    Named(Named),
    /// All bytes of another.
    Whole(Vec<u8>),
}

/// The entries of a directory. One with a name in ASCII that has neither a class id nor times, as most have, takes less
/// than half of the memory that it takes in a file.
#[derive(Drop)]
pub struct PackedEntries {
    slots: Vec<Slot>,
}

/// Lays sixteen bytes over those that stand at a place.
#[inline(always)]
fn put(entry: &mut [u8; 128], at: usize, piece: u8x16)
    requires { at + 16 ≤ 128 }
    ensures { entry.new ≡ take at entry.old ++ piece ++ drop (at + 16) entry.old }
{
    piece.copy_to_slice(&mut entry[at..at + 16]);
}

/// Sixteen bytes from a place on.
#[inline(always)]
fn piece(bytes: &[u8], at: usize) -> u8x16
    requires { at + 16 ≤ length bytes.now }
    ensures { result ≡ take 16 (drop at bytes.now) }
{
    u8x16::from_slice(&bytes[at..])
}

/// Sixteen characters in UTF-16.
#[inline(always)]
fn widened(characters: u8x16) -> (u8x16, u8x16)
    ensures { result.0 ++ result.1 ≡ flat_map unit characters }
{
    characters.interleave(u8x16::splat(0))
}

/// The bytes of an entry of which most are zero.
fn spell(short: &Short) -> [u8; 128]
    ensures { result ≡ block 128 (spelled short.now) 0 }
{
    let mut entry = [0; ENTRY_LEN];
    entry[116] = short.place[0];
    entry[117] = short.place[1];
    entry[118] = short.place[2];
    entry[119] = short.place[3];
    entry[120] = short.place[4];
    entry[121] = short.place[5];
    entry[122] = short.place[6];
    put(&mut entry, 64, piece(&short.head, 0));
    let (third, fourth) = widened(piece(&short.name, 16));
    put(&mut entry, 48, fourth);
    put(&mut entry, 32, third);
    let (first, second) = widened(piece(&short.name, 0));
    put(&mut entry, 16, second);
    put(&mut entry, 0, first);
    entry
}

/// A quarter of an entry, from a place on.
#[inline(always)]
fn quarter(entry: &[u8; 128], at: usize) -> u8x32
    requires { at + 32 ≤ 128 }
    ensures { result ≡ take 32 (drop at entry.now) }
{
    u8x32::from_slice(&entry[at..])
}

/// The lower and the upper bytes of the characters of an entry's name.
#[inline(always)]
fn parted(entry: &[u8; 128]) -> (u8x32, u8x32)
    ensures lower { result.0 ≡ evens (take 64 entry.now) }
    ensures upper { result.1 ≡ odds (take 64 entry.now) }
{
    quarter(entry, 0).deinterleave(quarter(entry, 32))
}

/// The last quarter of an entry, with zeros where its stream's place is.
#[inline(always)]
fn unplaced(last: u8x32) -> u8x32
    ensures { result ≡ take 20 last ++ replicate 7 0 ++ drop 27 last }
{
    last.shuffle(
        u8x32::splat(0),
        [
            0, 1, 2, 3, 4, 5, 6, 7, 8, 9, 10, 11, 12, 13, 14, 15, 16, 17, 18, 19, 32, 32, 32, 32,
            32, 32, 32, 27, 28, 29, 30, 31,
        ],
    )
}

/// What is zero only where both are.
#[inline(always)]
fn either(a: u8x32, b: u8x32) -> u8x32
    ensures { result ≡ replicate 32 0 → (a ≡ replicate 32 0) × (b ≡ replicate 32 0) }
{
    a | b
}

/// Whether all bytes are zero.
#[inline(always)]
fn is_zero(bytes: u8x32) -> bool
    ensures { result ≡ true → bytes ≡ replicate 32 0 }
{
    bytes.simd_ne(u8x32::splat(0)).to_bitmask() == 0
}

/// Whether all of an entry is zero that isn't kept of one which is held in less memory.
#[inline(always)]
fn is_short(entry: &[u8; 128]) -> bool
    ensures { result ≡ true → IsShort entry.now }
{
    let (_, upper) = parted(entry);
    let dated = quarter(entry, 80);
    let last = unplaced(quarter(entry, 96));
    is_zero(either(either(upper, dated), last))
}

/// What is kept of an entry of which all else is zero.
#[inline(always)]
fn shorten(entry: &[u8; 128]) -> Short
    ensures name { result.name ≡ evens (take 64 entry.now) }
    ensures head { result.head ≡ take 16 (drop 64 entry.now) }
    ensures place { result.place ≡ take 7 (drop 116 entry.now) }
{
    let (name, _) = parted(entry);
    Short {
        name: name.to_array(),
        head: piece(entry, 64).to_array(),
        place: [
            entry[116], entry[117], entry[118], entry[119], entry[120], entry[121], entry[122],
        ],
    }
}

/// What is kept of an entry whose name isn't read.
fn unnamed(named: &Named) -> Short
    ensures { block 128 (spelled result) 0 ≡ named_bytes named.now }
{
    let (name, head, place) = named.parts();
    Short { name, head, place }
}

/// How an entry is held of which all else is zero.
#[inline(always)]
fn slot_of(entry: &[u8; 128]) -> Slot
    requires { IsShort entry.now }
    ensures { entry_of result ≡ entry.now }
{
    let (characters, _) = parted(entry);
    let short = shorten(entry);
    match name_of(characters, read_u16(&short.head, 0)) {
        Some(name) => Slot::Named(Named::new(name, short.head, short.place)),
        None => Slot::Packed(short),
    }
}

/// The first bytes, with zeros behind them where there are fewer than an entry has.
fn front(bytes: &[u8]) -> [u8; 128]
    ensures { result ≡ block 128 bytes.now 0 }
{
    let mut entry = [0; ENTRY_LEN];
    let count = bytes.len().min(ENTRY_LEN);
    entry[..count].copy_from_slice(&bytes[..count]);
    entry
}

/// The bytes of one of several entries.
fn entry_in(bytes: &[u8], k: usize) -> &[u8; 128]
    requires { 128 * k + 128 ≤ length bytes.now }
    ensures { result.now ≡ take 128 (drop (128 * k) bytes.now) }
{
    match bytes[ENTRY_LEN * k..ENTRY_LEN * k + ENTRY_LEN].as_array::<ENTRY_LEN>() {
        Some(entry) => entry,
        None => unreachable!(),
    }
}

/// The number in four bytes that stand from the length of an entry's name to its links, of an entry of which most are
/// zero.
fn head_number(short: &Short, at: usize) -> u32
    requires { (64 ≤ at) × (at + 4 ≤ 80) }
    ensures { result ≡ u32_at (block 128 (spelled short.now) 0) at }
{
    read_u32(&short.head, at - 64)
}

impl Slot {
    ghost use Rattle.cfb_bytes.specs.Bytes.{u32_at};
    ghost use Rattle.read_packed.specs.Packed.{entry_of};
    ghost use Rattle.std.specs.Prelude.{◌+◌, ◌≡◌, ◌≤◌};

    /// The number in four of its bytes. Those that links have are read where they are kept.
    fn number(&self, at: usize) -> u32
        requires { at + 4 ≤ 128 }
        ensures { result ≡ u32_at (entry_of self.now) at }
    {
        if let Slot::Packed(short) = self {
            if at >= 64 && at + 4 <= 80 {
                return head_number(short, at);
            }
        }
        read_u32(&self.bytes(), at)
    }

    /// Its bytes.
    fn bytes(&self) -> [u8; 128]
        ensures { result ≡ entry_of self.now }
    {
        match self {
            Slot::Packed(short) => spell(short),
            Slot::Named(named) => spell(&unnamed(named)),
            Slot::Whole(bytes) => front(bytes),
        }
    }
}

impl Model for PackedEntries {
    ghost use Rattle.read_packed.specs.Packed.{entry_of};
    ghost use Rattle.std.specs.List.{flat_map};
    ghost use Rattle.std.specs.Prelude.{List, ℕ};

    ghost Value = { List ℕ };

    ghost view = { λ p. flat_map entry_of p.slots.items };
}

impl PackedEntries {
    ghost use Rattle.cfb_bytes.specs.Bytes.{block, u32_at};
    ghost use Rattle.read_packed.specs.Named.{named_bytes};
    ghost use Rattle.read_packed.specs.Packed.{entry_of};
    ghost use Rattle.std.specs.Prelude.{[], ◌*◌, ◌+◌, ◌++◌, ◌<◌, ◌≡◌, ◌≤◌, IfSome, OnErr, OnOk, length, slice_index, ℕ};

    /// No entries.
    pub fn new(alloc: Global) -> PackedEntries
        ensures { result ≡ [] }
    {
        PackedEntries {
            slots: Vec::new(alloc),
        }
    }

    /// Makes room for so many entries more, so that none of them is moved as the others come.
    pub fn reserve(&mut self, count: usize) -> Result<(), AllocError>
        ensures { self.new ≡ self.old }
    {
        self.slots.reserve_exact(count)?;
        Ok(())
    }

    /// How many entries there are, of 128 bytes each.
    pub fn count(&self) -> usize
        ensures { 128 * result ≡ length self.now }
    {
        self.slots.len()
    }

    /// The bytes of an entry.
    pub fn entry(&self, id: usize) -> [u8; 128]
        requires { 128 * id < length self.now }
        ensures { result ≡ block 128 self.now (128 * id) }
    {
        self.slots[id].bytes()
    }

    /// An entry whose name was read as it was added.
    #[inline(always)]
    pub fn named(&self, id: usize) -> Option<&Named>
        ensures there { IfSome result (λ _. 128 * id < length self.now) }
        ensures bytes { IfSome result (λ n. named_bytes n.now ≡ block 128 self.now (128 * id)) }
    {
        match self.slots.get(id) {
            Some(Slot::Named(named)) => Some(named),
            _ => None,
        }
    }

    /// The number in four bytes of an entry.
    pub fn number(&self, id: usize, at: usize) -> u32
        requires there { 128 * id < length self.now }
        requires within { at + 4 ≤ 128 }
        ensures { result ≡ u32_at (block 128 self.now (128 * id)) at }
    {
        self.slots[id].number(at)
    }

    /// One of all their bytes.
    pub fn byte(&self, at: usize) -> u8
        requires { at < length self.now }
        ensures { result ≡ slice_index self.now at }
    {
        self.entry(at / ENTRY_LEN)[at % ENTRY_LEN]
    }

    /// Adds an entry in the form in which it is held.
    #[inline(always)]
    fn add(&mut self, slot: Slot) -> Result<(), AllocError>
        ensures added { OnOk result (self.new ≡ self.old ++ entry_of slot) }
        ensures kept { OnErr result (self.new ≡ self.old) }
    {
        Ok(self.slots.push(slot)?)
    }

    /// Adds an entry, in as little memory as it can be held.
    fn push(&mut self, alloc: Global, entry: &[u8; 128]) -> Result<(), AllocError>
        ensures added { OnOk result (self.new ≡ self.old ++ entry.now) }
        ensures kept { OnErr result (self.new ≡ self.old) }
    {
        if is_short(entry) {
            return self.add(slot_of(entry));
        }
        let bytes = Vec::from_slice(alloc, entry)?;
        self.add(Slot::Whole(bytes))
    }

    /// Adds the entries that have these bytes.
    ///
    /// Refused for want of memory, and then none is added.
    pub fn append(&mut self, alloc: Global, bytes: &[u8]) -> Result<(), AllocError>
        requires whole { (m : ℕ) × (length bytes.now ≡ 128 * m) }
        ensures added { OnOk result (self.new ≡ self.old ++ bytes.now) }
        ensures kept { OnErr result (self.new ≡ self.old) }
    {
        let before = self.slots.len();
        for k in 0..bytes.len() / ENTRY_LEN {
            let entry = entry_in(bytes, k);
            match self.push(alloc, entry) {
                Ok(()) => {}
                Err(_) => {
                    self.slots.truncate(before);
                    return Err(AllocError);
                }
            }
        }
        Ok(())
    }
}
