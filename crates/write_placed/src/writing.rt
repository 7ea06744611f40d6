//! What the blocks of a file are to hold whose parts were given their sectors.

ghost use Rattle.cfb_file.specs.declared.limit.TheConstants.{MOST_FAT_SECTORS};
ghost use Rattle.std.specs.Prelude.{◌≤◌, ◌+◌, ◌*◌, IfOk, length};

use crate::bytes::{SECTOR, piece};
use crate::freed::Freed;
use crate::parts::Part;
use cfb_file::limit::MOST_FAT_SECTORS;
use std::alloc::{AllocError, Global};

/// A file of so many sectors whose parts have theirs, and what stands in it.
#[derive(Drop)]
pub struct Laid<'a> {
    pub(crate) count: usize,
    pub(crate) parts: Vec<Part<'a>>,
    pub(crate) header: [u8; 512],
    /// The bytes of the system's parts.
    pub(crate) own: Vec<Vec<u8>>,
    pub(crate) freed: Freed,
    pub(crate) zeros: [u8; 512],
}

/// Lays bytes into blocks behind the header, as far as both go.
fn lay<'a>(blocks: &mut [&'a [u8]], sectors: &[u32], bytes: &'a [u8]) {
    for k in 0..sectors.len() {
        let at = sectors[k] as usize + 1;
        if at < blocks.len() {
            blocks[at] = piece(bytes, SECTOR, k);
        }
    }
}

impl Laid<'_> {
    /// Lays what stands in the parts into the blocks behind the header.
    fn fill<'b>(&'b self, blocks: &mut [&'b [u8]]) {
        for k in 0..self.parts.len() {
            let part = &self.parts[k];
            let bytes = match self.own.get(k) {
                Some(own) => own.as_slice(),
                None => part.bytes,
            };
            if !part.short {
                lay(blocks, &part.sectors, bytes);
            }
        }
    }

    /// What each block of 512 bytes is to hold, the header first: at most 512 bytes, with zeros behind them up to 512.
    /// One without bytes stays as it was in the older file: such are those that nothing lies in where what is freed is
    /// kept, and none where it becomes zeros.
    pub fn blocks(&self, alloc: Global) -> Result<Vec<&[u8]>, AllocError>
        ensures { IfOk result (λ v. length v.items ≤ 1 + 128 * MOST_FAT_SECTORS) }
    {
        let filler: &[u8] = match self.freed {
            Freed::Kept => &[],
            Freed::Zeroed => &self.zeros,
        };
        let count = 1 + self.count.min(128 * MOST_FAT_SECTORS as usize);
        let mut blocks = vec![in alloc; filler; count]?;
        blocks[0] = &self.header;
        self.fill(&mut blocks);
        Ok(blocks)
    }
}
