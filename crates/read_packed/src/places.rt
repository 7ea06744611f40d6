//! A file in memory of which only some blocks were read.

ghost use Rattle.cfb_bytes.specs.Bytes.{block};
ghost use Rattle.read_packed.specs.Places.{filled};
ghost use Rattle.std.specs.Prelude.{◌*◌, ◌+◌, ◌++◌, ◌-◌, ◌<◌, ◌≡◌, ◌≢◌, ◌≤◌, ◌^◌, IfOk, IfSome, OnErr, OnOk, length};
ghost use Rattle.std.specs.Prelude.{min, slice_index, slice_set, true, ℕ};

use crate::packed::PackedEntries;
use crate::pool::Pool;
pub use crate::pool::{BLOCK, Held};
use std::alloc::{AllocError, Global};
use std::marker::Model;

/// A file of which only some blocks were read; zero bytes stand for the others. Each block before the last that was
/// read takes four bytes of memory.
#[derive(Drop)]
pub struct Places {
    len: usize,
    pool: Pool,
    /// Where the first blocks begin in the pool; those behind them weren't read.
    places: Vec<u32>,
}

impl Model for Places {
    ghost use Rattle.std.specs.Prelude.{List, ℕ, ◌+◌, ◌/◌};
    ghost use Rattle.read_packed.specs.Places.{IsPlaced, filled, placed};

    ghost Value = { List ℕ };

    ghost view = { λ p. placed p.len p.pool (filled (p.len / 512 + 1) p.places.items) };

    ghost invariant = { λ p. IsPlaced p.len p.pool (filled (p.len / 512 + 1) p.places.items) };
}

/// Where a block begins in the pool, whose first bytes are zeros.
fn place_at(places: &[u32], n: usize) -> usize
    ensures there { result ≡ slice_index places.now n }
    ensures near { result < 2 ^ 32 }
{
    if n < places.len() {
        places[n] as usize
    } else {
        0
    }
}

/// Says of a block where it begins in the pool.
fn set_place(places: &mut Vec<u32>, n: usize, at: u32) -> Result<(), AllocError>
    requires { n < 2 ^ 60 }
    ensures put { OnOk result ((count : ℕ) → n < count → filled count places.new.items
        ≡ slice_set (filled count places.old.items) n at) }
    ensures kept { OnErr result (places.new.items ≡ places.old.items) }
{
    if n < places.len() {
        places[n] = at;
        return Ok(());
    }
    places.resize(n + 1, 0)?;
    places[n] = at;
    Ok(())
}

/// Whether so many places from one on are a block apart, the first of them being `at`.
fn are_in_turn(places: &[u32], first: usize, count: usize, at: usize) -> bool
    requires inside { first + count ≤ length places.now }
    requires near { at < 2 ^ 32 }
    ensures { result ≡ true → (k : ℕ) → k < count → slice_index places.now (first + k) ≡ at + 512 * k }
{
    let mut next = at;
    for k in 0..count {
        if places[first + k] as usize != next {
            return false;
        }
        next += BLOCK;
    }
    true
}

/// Whether the blocks of sectors are whole in a file of so many blocks, and their places are a block apart, the first
/// of them being `at`. The first block of a file is none of a sector.
fn are_at(places: &[u32], sectors: &[u32], blocks: usize, at: usize) -> bool
    requires near { at < 2 ^ 32 }
    ensures whole { result ≡ true → (k : ℕ) → k < length sectors.now → slice_index sectors.now k + 1 < blocks }
    ensures in_turn { result ≡ true → (k : ℕ) → k < length sectors.now
        → slice_index places.now (slice_index sectors.now k + 1) ≡ at + 512 * k }
{
    let mut next = at;
    for k in 0..sectors.len() {
        let n = sectors[k] as usize + 1;
        if n >= blocks || place_at(places, n) != next {
            return false;
        }
        next += BLOCK;
    }
    true
}

impl Places {
    /// A file of so many bytes, of which none was read.
    pub fn new(alloc: Global, len: usize) -> Result<Places, AllocError>
        ensures { IfOk result (λ p. length p ≡ len) }
    {
        let pool = Pool::new(alloc)?;
        let places = Vec::with_capacity(alloc, len / BLOCK + 1)?;
        Ok(Places { len, pool, places })
    }

    /// How many bytes it has.
    pub fn len(&self) -> usize
        ensures { result ≡ length self.now }
    {
        self.len
    }

    /// Adds a block to others; zero bytes stand for what there isn't of it.
    pub fn push_block(&self, out: &mut Vec<u8>, n: usize) -> Result<(), AllocError>
        requires { n ≤ 2 ^ 32 }
        ensures { OnOk result (out.new.items ≡ out.old.items ++ block 512 self.now (512 * n)) }
    {
        let end = out.len() + BLOCK;
        let at = place_at(&self.places, n);
        let size = self.len.saturating_sub(BLOCK * n).min(BLOCK);
        self.pool.push_bytes(out, at, size)?;
        out.resize(end, 0)?;
        Ok(())
    }

    /// The bytes of so many blocks from one on, where they are whole and were put one after another, as they are.
    pub fn run(&self, first: usize, count: usize) -> Option<&[u8]>
        ensures whole { IfSome result (λ run. length run.now ≡ 512 * count) }
        ensures each { IfSome result (λ run. (k : ℕ) → k < count → block 512 run.now (512 * k)
            ≡ block 512 self.now (512 * (first + k))) }
    {
        let end = first.checked_add(count)?;
        if count == 0 || end > self.len / BLOCK || end > self.places.len() {
            return None;
        }
        let at = self.places[first] as usize;
        if !are_in_turn(&self.places, first, count, at) {
            return None;
        }
        let run = self.pool.slice(at, BLOCK * count)?;
        Some(run)
    }

    /// The bytes of sectors, where they are whole and all that was put as entries of a directory, one after another.
    pub fn entries(&self, sectors: &[u32]) -> Option<&PackedEntries>
        ensures whole { IfSome result (λ p. length p.now ≡ 512 * length sectors.now) }
        ensures each { IfSome result (λ p. (k : ℕ) → k < length sectors.now
            → block 512 p.now (512 * k) ≡ block 512 self.now (512 * (slice_index sectors.now k + 1))) }
    {
        let first = *sectors.first()?;
        let at = place_at(&self.places, first as usize + 1);
        if !are_at(&self.places, sectors, self.len / BLOCK, at) {
            return None;
        }
        let size = BLOCK.checked_mul(sectors.len())?;
        let entries = self.pool.entries(at, size)?;
        Some(entries)
    }

    /// Makes room for so many blocks that are to be put as entries of a directory, and for so many behind them. Without
    /// it they are moved as more come, and take twice their memory meanwhile.
    pub fn reserve(&mut self, entries: usize, behind: usize) -> Result<(), AllocError>
        ensures { self.new ≡ self.old }
    {
        self.pool.reserve(entries, behind)
    }

    /// Puts the bytes of a block, as many as the file has of it, in their place, held as is asked.
    pub fn put(
        &mut self,
        alloc: Global,
        n: usize,
        bytes: &[u8],
        held: Held,
    ) -> Result<(), AllocError>
        requires inside { 512 * n < length self.old }
        requires whole { length bytes.now ≡ min 512 (length self.old - 512 * n) }
        ensures len { length self.new ≡ length self.old }
        ensures here { OnOk result (block 512 self.new (512 * n) ≡ block 512 bytes.now 0) }
        ensures apart { OnOk result ((m : ℕ) → m ≢ n → block 512 self.new (512 * m) ≡ block 512 self.old (512 * m)) }
    {
        let Ok(at) = u32::try_from(self.pool.len()) else {
            return Err(AllocError);
        };
        self.pool.put(alloc, bytes, held)?;
        set_place(&mut self.places, n, at)?;
        Ok(())
    }
}
