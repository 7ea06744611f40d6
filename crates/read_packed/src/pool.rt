//! The blocks of a file that were read, one behind the other.

ghost use Rattle.read_packed.specs.Places.{whole};
ghost use Rattle.std.specs.Prelude.{◌+◌, ◌++◌, ◌≡◌, ◌≤◌, IfSome, OnErr, OnOk, drop, length, take};

use crate::packed::PackedEntries;
use std::alloc::{AllocError, Global};
use std::marker::Model;

/// The size of a block.
pub const BLOCK: usize = 512;

/// How many bytes an entry of a directory has.
const ENTRY_LEN: usize = 128;

/// How blocks are held in memory.
#[derive(Clone, Copy)]
pub enum Held {
    /// As they are.
    Plain,
    /// As entries of a directory, which take less memory so.
    Entries,
}

/// Blocks one behind the other: some as they are, then those of a directory, and others again.
#[derive(Drop)]
struct Blocks {
    before: Vec<u8>,
    directory: PackedEntries,
    after: Vec<u8>,
}

/// Blocks one behind the other, and how many bytes they have.
#[derive(Drop)]
pub(crate) struct Pool {
    blocks: Blocks,
    len: usize,
}

/// Adds a block of which these are the first bytes, zeros standing for the others.
///
/// Refused for want of memory, and then nothing is added.
fn push_whole(out: &mut Vec<u8>, bytes: &[u8]) -> Result<(), AllocError>
    requires { length bytes.now ≤ 512 }
    ensures added { OnOk result (out.new.items ≡ out.old.items ++ whole bytes.now) }
    ensures kept { OnErr result (out.new.items ≡ out.old.items) }
{
    let before = out.len();
    out.extend_from_slice(bytes)?;
    match out.resize(before + BLOCK, 0) {
        Ok(()) => Ok(()),
        Err(_) => {
            out.truncate(before);
            Err(AllocError)
        }
    }
}

/// So many bytes from a place on, if they are there.
fn run_in(bytes: &[u8], at: usize, size: usize) -> Option<&[u8]>
    ensures whole { IfSome result (λ s. length s.now ≡ size) }
    ensures inside { IfSome result (λ _. at + size ≤ length bytes.now) }
    ensures bytes { IfSome result (λ s. s.now ≡ take size (drop at bytes.now)) }
{
    let rest = bytes.get(at..)?;
    let run = rest.get(..size)?;
    Some(run)
}

impl Model for Blocks {
    ghost use Rattle.std.specs.Prelude.{◌++◌, List, ℕ};

    ghost Value = { List ℕ };

    ghost view = { λ b. b.before.items ++ b.directory ++ b.after.items };
}

impl Blocks {
    ghost use Rattle.read_packed.specs.Places.{whole};
    ghost use Rattle.std.specs.Prelude.{◌++◌, ◌+◌, ◌<◌, ◌≡◌, ◌≤◌, IfSome, OnErr, OnOk, drop, length, slice_index, take};

    /// Adds a block of which these are the first bytes, zeros standing for the others. Those of a directory stand
    /// together, so one behind others is held as it is.
    ///
    /// Refused for want of memory, and then nothing is added.
    fn add(&mut self, alloc: Global, bytes: &[u8], held: Held) -> Result<(), AllocError>
        requires { length bytes.now ≤ 512 }
        ensures added { OnOk result (self.new ≡ self.old ++ whole bytes.now) }
        ensures kept { OnErr result (self.new ≡ self.old) }
    {
        if !self.after.is_empty() {
            return push_whole(&mut self.after, bytes);
        }
        if matches!(held, Held::Entries) && bytes.len() == BLOCK {
            return self.directory.append(alloc, bytes);
        }
        if self.directory.count() > 0 {
            return push_whole(&mut self.after, bytes);
        }
        push_whole(&mut self.before, bytes)
    }

    /// Makes room for so many blocks of a directory, and for so many behind them.
    fn reserve(&mut self, entries: usize, behind: usize) -> Result<(), AllocError>
        ensures { self.new ≡ self.old }
    {
        self.directory
            .reserve((BLOCK / ENTRY_LEN).saturating_mul(entries))?;
        self.after.reserve_exact(BLOCK.saturating_mul(behind))?;
        Ok(())
    }

    /// The bytes of some that are held as they are, where they stand so in memory.
    fn slice(&self, at: usize, size: usize) -> Option<&[u8]>
        ensures whole { IfSome result (λ s. length s.now ≡ size) }
        ensures bytes { IfSome result (λ s. s.now ≡ take size (drop at self.now)) }
    {
        if let Some(run) = run_in(&self.before, at, size) {
            return Some(run);
        }
        let entries = ENTRY_LEN.checked_mul(self.directory.count())?;
        let behind = at.checked_sub(self.before.len())?.checked_sub(entries)?;
        let run = run_in(&self.after, behind, size)?;
        Some(run)
    }

    /// One of the bytes.
    fn byte(&self, at: usize) -> u8
        requires { at < length self.now }
        ensures { result ≡ slice_index self.now at }
    {
        let before = self.before.len();
        if at < before {
            return self.before[at];
        }
        let entries = self.directory.count();
        if (at - before) / ENTRY_LEN < entries {
            return self.directory.byte(at - before);
        }
        self.after[at - before - ENTRY_LEN * entries]
    }

    /// The bytes of some, where they are all that is held as entries of a directory.
    fn entries(&self, at: usize, size: usize) -> Option<&PackedEntries>
        ensures whole { IfSome result (λ p. length p.now ≡ size) }
        ensures bytes { IfSome result (λ p. p.now ≡ take size (drop at self.now)) }
    {
        if at != self.before.len() || size % ENTRY_LEN != 0 {
            return None;
        }
        if size / ENTRY_LEN != self.directory.count() {
            return None;
        }
        Some(&self.directory)
    }
}

impl Model for Pool {
    ghost use Rattle.std.specs.Prelude.{◌≡◌, List, length, ℕ};

    ghost Value = { List ℕ };

    ghost view = { λ p. p.blocks };

    ghost invariant = { λ p. p.len ≡ length p.blocks };
}

impl Pool {
    ghost use Rattle.read_packed.specs.Places.{whole};
    ghost use Rattle.std.specs.Prelude.{◌++◌, ◌+◌, ◌<◌, ◌≡◌, ◌≤◌, ◌^◌, IfOk, IfSome, OnErr, OnOk, drop, length};
    ghost use Rattle.std.specs.Prelude.{replicate, take};

    /// One block, of zeros.
    pub(crate) fn new(alloc: Global) -> Result<Pool, AllocError>
        ensures { IfOk result (λ p. p ≡ replicate 512 0) }
    {
        let before = vec![in alloc; 0; BLOCK]?;
        let blocks = Blocks {
            before,
            directory: PackedEntries::new(alloc),
            after: Vec::new(alloc),
        };
        Ok(Pool { blocks, len: BLOCK })
    }

    /// How many bytes there are.
    pub(crate) fn len(&self) -> usize
        ensures { result ≡ length self.now }
    {
        self.len
    }

    /// Makes room for so many blocks that are held as entries of a directory, and for so many behind them.
    pub(crate) fn reserve(&mut self, entries: usize, behind: usize) -> Result<(), AllocError>
        ensures { self.new ≡ self.old }
    {
        self.blocks.reserve(entries, behind)
    }

    /// Adds a block of which these are the first bytes, zeros standing for the others.
    ///
    /// Refused for want of memory, and then nothing is added.
    pub(crate) fn put(&mut self, alloc: Global, bytes: &[u8], held: Held) -> Result<(), AllocError>
        requires { length bytes.now ≤ 512 }
        ensures added { OnOk result (self.new ≡ self.old ++ whole bytes.now) }
        ensures kept { OnErr result (self.new ≡ self.old) }
    {
        let Some(len) = self.len.checked_add(BLOCK) else {
            return Err(AllocError);
        };
        self.blocks.add(alloc, bytes, held)?;
        self.len = len;
        Ok(())
    }

    /// The bytes of some that are held as they are, where they stand so in memory.
    pub(crate) fn slice(&self, at: usize, size: usize) -> Option<&[u8]>
        ensures whole { IfSome result (λ s. length s.now ≡ size) }
        ensures bytes { IfSome result (λ s. s.now ≡ take size (drop at self.now)) }
    {
        self.blocks.slice(at, size)
    }

    /// The bytes of some, where they are all that is held as entries of a directory.
    pub(crate) fn entries(&self, at: usize, size: usize) -> Option<&PackedEntries>
        ensures whole { IfSome result (λ p. length p.now ≡ size) }
        ensures bytes { IfSome result (λ p. p.now ≡ take size (drop at self.now)) }
    {
        self.blocks.entries(at, size)
    }

    /// Adds so many of the bytes to others.
    pub(crate) fn push_bytes(
        &self,
        out: &mut Vec<u8>,
        at: usize,
        size: usize,
    ) -> Result<(), AllocError>
        requires near { at < 2 ^ 32 }
        requires few { size ≤ 512 }
        requires there { at + size ≤ length self.now }
        ensures { OnOk result (out.new.items ≡ out.old.items ++ take size (drop at self.now)) }
    {
        if let Some(bytes) = self.blocks.slice(at, size) {
            return out.extend_from_slice(bytes);
        }
        for k in 0..size {
            out.push(self.blocks.byte(at + k))?;
        }
        Ok(())
    }
}
