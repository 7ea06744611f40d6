//! Blocks of memory, in which bytes lie one behind another.

ghost use Rattle.std.specs.Prelude.{◌≡◌, ◌≤◌, ◌<◌, IfOk, List, OnOk, ℕ, length};
ghost use Rattle.tree_rising.specs.Laid.{Grows, laid};

use std::alloc::{AllocError, Global};
use std::marker::Model;
use tree_values::bytes::Bytes;

/// How many bytes a block has room for that is filled with one after another.
pub const BLOCK: usize = 65_536;

/// Where bytes lie: in which block, from which place on, how many.
#[derive(Clone, Copy)]
pub struct Spot {
    pub block: u32,
    pub start: u32,
    pub len: usize,
}

/// Blocks of bytes, one of which is being filled.
#[derive(Drop)]
pub struct Blocks {
    // All but the one that is filled, in whose place an empty one stands where others come behind it.
    full: Vec<Bytes>,
    // The one that is filled, and which of them all it is.
    last: Vec<u8>,
    filled: u32,
}

impl Model for Blocks {
    ghost use Rattle.std.specs.Prelude.{◌≤◌, List, ℕ, length};
    ghost use Rattle.tree_rising.specs.Laid.{laid};

    ghost Value = { List (List ℕ) };

    ghost view = { λ b. laid b.full.items b.filled b.last.items };

    ghost invariant = { λ b. b.filled ≤ length b.full.items };
}

/// Sees to it that the block that is filled has its place among the others, where an empty one stands for it. Refused
/// for want of memory.
fn hold_place(alloc: Global, full: &mut Vec<Bytes>, at: usize) -> Result<(), AllocError>
    requires { at ≤ length full.old.items }
    ensures there { OnOk result (at < length full.new.items) }
    ensures more { length full.old.items ≤ length full.new.items }
    ensures same { (block : List ℕ) → laid full.new.items at block ≡ laid full.old.items at block }
{
    if at < full.len() {
        return Ok(());
    }
    full.push(Bytes::new(alloc))?;
    Ok(())
}

impl Blocks {
    ghost use Rattle.std.specs.Prelude.{◌∷◌, []};
    ghost use Rattle.tree_rising.specs.Spots.{Holds};

    /// One block without bytes, which takes no memory.
    pub fn new(alloc: Global) -> Blocks
        ensures { result ≡ [] ∷ [] }
    {
        Blocks {
            full: Vec::new(alloc),
            last: Vec::new(alloc),
            filled: 0,
        }
    }

    /// Puts the block that is filled among the others, where it has bytes, and begins a new one, with all the room of a
    /// block.
    ///
    /// Refused for want of memory, and where the blocks are too many for their numbers.
    fn begin(&mut self, alloc: Global) -> Result<(), AllocError>
        ensures { Grows self.old self.new }
    {
        let fresh = Vec::with_capacity(alloc, BLOCK)?;
        if self.last.is_empty() {
            self.last = fresh;
            return Ok(());
        }
        // What may be refused comes first, so that the bytes are never nowhere.
        hold_place(alloc, &mut self.full, self.filled as usize)?;
        let Ok(next) = u32::try_from(self.full.len()) else {
            return Err(AllocError);
        };
        let closed = Bytes::take_vec(alloc, &mut self.last)?;
        self.full[self.filled as usize] = closed;
        self.filled = next;
        self.last = fresh;
        Ok(())
    }

    /// Puts a copy of these bytes into the block that is filled, or into a new one where that has no room for them, and
    /// says where they lie.
    ///
    /// Refused for want of memory, and where the blocks are too many for their numbers.
    pub fn put(&mut self, alloc: Global, bytes: &[u8]) -> Result<Spot, AllocError>
        ensures grows { Grows self.old self.new }
        ensures there { IfOk result (λ spot. Holds self.new spot bytes.now) }
    {
        if bytes.len() > self.last.capacity() - self.last.len() {
            self.begin(alloc)?;
        }
        let Ok(start) = u32::try_from(self.last.len()) else {
            return Err(AllocError);
        };
        self.last.extend_from_slice(bytes)?;
        Ok(Spot {
            block: self.filled,
            start,
            len: bytes.len(),
        })
    }

    /// Makes these bytes a block of their own, and says where they lie.
    ///
    /// Refused for want of memory, and where the blocks are too many for their numbers.
    pub fn put_whole(&mut self, alloc: Global, bytes: Bytes) -> Result<Spot, AllocError>
        ensures grows { Grows self.old self.new }
        ensures there { IfOk result (λ spot. Holds self.new spot bytes) }
    {
        hold_place(alloc, &mut self.full, self.filled as usize)?;
        let Ok(block) = u32::try_from(self.full.len()) else {
            return Err(AllocError);
        };
        let len = bytes.len();
        self.full.push(bytes)?;
        Ok(Spot {
            block,
            start: 0,
            len,
        })
    }

    /// All blocks. Refused for want of memory.
    pub fn into_vec(self, alloc: Global) -> Result<Vec<Bytes>, AllocError>
        ensures { IfOk result (λ blocks. blocks.items ≡ self) }
    {
        let Blocks {
            mut full,
            last,
            filled,
        } = self;
        hold_place(alloc, &mut full, filled as usize)?;
        full[filled as usize] = Bytes::from_vec(alloc, last)?;
        Ok(full)
    }
}
