//! The entries of a table of sectors, where they stand or as numbers.

ghost use Rattle.cfb_header.specs.Bytes.{joined, sector, u32_at};
ghost use Rattle.read_chains.specs.View.{image_bytes};
ghost use Rattle.cfb_chains.specs.Fat.{sectors_in};
ghost use Rattle.read_chains.specs.Walks.{IsWalk};
ghost use Rattle.std.specs.Prelude.{◌*◌, ◌<◌, ◌≤◌, ◌^◌, ◌≡◌, Bool, IfOk, List, length, min, slice_index, ℕ};

use crate::image::Image;
use crate::table::{count_entries, table_in};
use crate::walks::{Walk, mark_by_bytes, mark_by_numbers};
use cfb_bytes::numbers::read_u32;
use std::alloc::{AllocError, Global};
use std::marker::Model;

/// What follows each sector of a table.
#[derive(Drop)]
pub struct Links<'a> {
    entries: Entries<'a>,
}

/// Where the entries are.
#[derive(Drop)]
enum Entries<'a> {
    /// So many in the bytes of a table whose sectors stand one after another in memory.
    Run(&'a [u8], usize),
    /// Read as numbers.
    Numbers(Vec<u32>),
    /// Numbers that somebody else keeps.
    Slice(&'a [u32]),
}

impl<'a> Model for Links<'a> {
    ghost use Rattle.std.specs.Prelude.{List, ℕ};
    ghost use Rattle.read_chains.specs.Links.{AreWhole, entries_of};

    ghost Value = { List ℕ };

    ghost view = { λ l. entries_of l.entries };

    ghost invariant = { λ l. AreWhole l.entries };
}

/// One of so many entries in bytes.
fn entry_in(bytes: &[u8], count: usize, n: usize) -> u32
    requires whole { 4 * count ≤ length bytes.now }
    requires there { n < count }
    ensures { result ≡ u32_at bytes.now (4 * n) }
{
    read_u32(bytes, 4 * n)
}

/// One of the numbers.
fn number_in(numbers: &[u32], n: usize) -> u32
    requires { n < length numbers.now }
    ensures { result ≡ slice_index numbers.now n }
{
    numbers[n]
}

impl<'a> Links<'a> {
    /// The first entries of the table in these bytes.
    pub(crate) fn over(bytes: &'a [u8], count: usize) -> Links<'a>
        requires { 4 * count ≤ length bytes.now }
        ensures count { length result ≡ count }
        ensures each { (k : ℕ) → k < count → slice_index result k ≡ u32_at bytes.now (4 * k) }
    {
        Links {
            entries: Entries::Run(bytes, count),
        }
    }

    /// Entries that were read.
    pub(crate) fn of(numbers: Vec<u32>) -> Links<'a>
        ensures { result ≡ numbers.items }
    {
        Links {
            entries: Entries::Numbers(numbers),
        }
    }

    /// Entries that were read, and that somebody else keeps.
    pub fn lent(numbers: &'a [u32]) -> Links<'a>
        ensures { result ≡ numbers.now }
    {
        Links {
            entries: Entries::Slice(numbers),
        }
    }

    /// The first entries of a FAT that lies in these sectors, zero standing for those that it doesn't have. Where the
    /// sectors stand one after another in memory, they are read there.
    pub(crate) fn load(
        alloc: Global,
        file: &Image<'a>,
        sectors: &[u32],
        count: usize,
    ) -> Result<Links<'a>, AllocError>
        requires fits { count < 2 ^ 60 }
        ensures count { IfOk result (λ l. length l ≡ count) }
        ensures each { IfOk result (λ l. (k : ℕ) → k < count → slice_index l k
            ≡ u32_at (joined (sector (image_bytes file.now)) sectors.now) (4 * k)) }
    {
        if let Some(bytes) = file.run(sectors) {
            if count <= bytes.len() / 4 {
                return Ok(Links::over(bytes, count));
            }
        }
        let numbers = table_in(alloc, file, sectors, count)?;
        Ok(Links::of(numbers))
    }

    /// The entries of the FAT of a file, which lies in these sectors, whether they are there or not. They take memory
    /// only where the sectors don't stand one after another in memory.
    pub fn read(alloc: Global, file: &Image<'a>, fat: &[u32]) -> Result<Links<'a>, AllocError>
        requires { length fat.now ≤ 2 ^ 32 }
        ensures count { IfOk result (λ l. length l ≡ min (128 * length fat.now) (sectors_in (image_bytes file.now))) }
        ensures each { IfOk result (λ l. (k : ℕ) → k < length l
            → slice_index l k ≡ u32_at (joined (sector (image_bytes file.now)) fat.now) (4 * k)) }
    {
        Links::load(alloc, file, fat, count_entries(fat.len(), file))
    }

    /// How many there are.
    pub fn len(&self) -> usize
        ensures { result ≡ length self.now }
    {
        match &self.entries {
            Entries::Run(_, count) => *count,
            Entries::Numbers(numbers) => numbers.len(),
            Entries::Slice(numbers) => numbers.len(),
        }
    }

    /// The one of a sector.
    pub fn entry(&self, n: usize) -> u32
        requires { n < length self.now }
        ensures { result ≡ slice_index self.now n }
    {
        match &self.entries {
            Entries::Run(bytes, count) => entry_in(bytes, *count, n),
            Entries::Numbers(numbers) => number_in(numbers, n),
            Entries::Slice(numbers) => number_in(numbers, n),
        }
    }

    /// Marks the sectors from one on, each followed by the one that its entry names, until one comes that isn't in the
    /// table or is marked.
    pub(crate) fn mark_walk(&self, start: u32, used: &mut [bool]) -> Walk
        requires { length used.old ≡ length self.now }
        ensures { IsWalk (slice_index self.now) start used.old used.new result.count result.stop }
    {
        match &self.entries {
            Entries::Run(bytes, _) => mark_by_bytes(bytes, start, used),
            Entries::Numbers(numbers) => mark_by_numbers(numbers, start, used),
            Entries::Slice(numbers) => mark_by_numbers(numbers, start, used),
        }
    }

    /// Takes back the marks of a walk from a sector on.
    pub(crate) fn clear_walk(&self, start: u32, walk: Walk, used: &mut [bool])
        requires each { length used.old ≡ length self.now }
        requires walked { (before : List Bool) × IsWalk (slice_index self.now) start before used.old walk.count
            walk.stop }
        ensures { (before : List Bool) → IsWalk (slice_index self.now) start before used.old walk.count walk.stop
            → used.new ≡ before }
    {
        let mut at = start;
        for _ in 0..walk.count {
            let n = at as usize;
            used[n] = false;
            at = self.entry(n);
        }
    }
}
