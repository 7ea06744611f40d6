//! Lists of bytes that lie together in blocks of memory.

ghost use Rattle.std.specs.Prelude.{◌≡◌, ◌∷◌, ◌++◌, [], IfOk, OnErr, OnOk, length};

use crate::blocks::{BLOCK, Blocks, Spot};
use std::alloc::{AllocError, Global};
use std::marker::Model;
use tree_values::bytes::Bytes;

/// Lists of bytes, in order, that lie together in blocks of memory.
#[derive(Drop)]
pub struct ByteLists {
    blocks: Blocks,
    /// Where each of them lies.
    spots: Vec<Spot>,
}

impl Model for ByteLists {
    ghost use Rattle.std.specs.List.{All};
    ghost use Rattle.std.specs.Prelude.{List, ℕ, map};
    ghost use Rattle.tree_rising.specs.Spots.{LiesIn, bytes_at};

    ghost Value = { List (List ℕ) };

    ghost view = { λ l. map (bytes_at l.blocks) l.spots.items };

    ghost invariant = { λ l. All (LiesIn l.blocks) l.spots.items };
}

impl ByteLists {
    /// No lists, which take no memory.
    pub fn new(alloc: Global) -> ByteLists
        ensures { result ≡ [] }
    {
        ByteLists {
            blocks: Blocks::new(alloc),
            spots: Vec::new(alloc),
        }
    }

    /// How many there are.
    pub fn len(&self) -> usize
        ensures { result ≡ length self.now }
    {
        self.spots.len()
    }

    /// Puts a copy of these bytes behind all others.
    ///
    /// Refused for want of memory, and where the blocks are too many for their numbers. A refusal changes nothing.
    pub fn push(&mut self, alloc: Global, bytes: &[u8]) -> Result<(), AllocError>
        ensures added { OnOk result (self.new ≡ self.old ++ bytes.now ∷ []) }
        ensures kept { OnErr result (self.new ≡ self.old) }
    {
        // So no more of a block is left without bytes than a quarter.
        if bytes.len() > BLOCK / 4 {
            return self.push_whole(alloc, Bytes::from_slice(alloc, bytes)?);
        }
        let spot = self.blocks.put(alloc, bytes)?;
        self.spots.push(spot)?;
        Ok(())
    }

    /// Puts these bytes, without a copy of them, behind all others.
    ///
    /// Refused for want of memory, and where the blocks are too many for their numbers. A refusal changes nothing.
    pub fn push_whole(&mut self, alloc: Global, bytes: Bytes) -> Result<(), AllocError>
        ensures added { OnOk result (self.new ≡ self.old ++ bytes ∷ []) }
        ensures kept { OnErr result (self.new ≡ self.old) }
    {
        let spot = self.blocks.put_whole(alloc, bytes)?;
        self.spots.push(spot)?;
        Ok(())
    }

    /// All of them, in order, each a part of the block in which it lies, so that no bytes are copied. All of a block is
    /// kept as long as a part of it is there.
    ///
    /// Refused for want of memory, and where a block has more parts than can be counted.
    pub fn into_parts(self, alloc: Global) -> Result<Vec<Bytes>, AllocError>
        ensures { IfOk result (λ parts. parts.items ≡ self) }
    {
        let ByteLists { blocks, spots } = self;
        let blocks = blocks.into_vec(alloc)?;
        let mut parts = Vec::with_capacity(alloc, spots.len())?;
        for spot in &spots {
            let block = &blocks[spot.block as usize];
            parts.push(block.part(alloc, spot.start as usize, spot.len)?)?;
        }
        Ok(parts)
    }
}
