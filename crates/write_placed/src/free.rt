//! The search for free sectors.

ghost use Rattle.write_placed.specs.declared.free.TheConstants.{MOST};
ghost use Rattle.std.specs.Prelude.{◌≡◌, ◌≤◌, ◌<◌, IfOk, false, slice_index_or, true, ℕ};

use std::alloc::AllocError;

/// The most sectors, or mini sectors, that a file within the limit has.
const MOST: usize = 1_152_000;

/// Which sectors are taken. The least free one is searched from where the last one was found.
#[derive(Drop)]
pub(crate) struct Sectors {
    pub taken: Vec<bool>,
    pub at: usize,
}

impl Sectors {
    /// Takes one that is kept. One past the limit is left out, so a file that had it isn't made.
    pub(crate) fn keep(&mut self, at: usize) -> Result<(), AllocError> {
        if at >= MOST {
            return Ok(());
        }
        if at >= self.taken.len() {
            self.taken.resize(at + 1, false)?;
        }
        self.taken[at] = true;
        Ok(())
    }

    /// The least free one from a place on.
    fn free_from(&self, from: usize) -> usize
        ensures free { slice_index_or self.now.taken.items result false ≡ false }
        ensures least { (k : ℕ) → from ≤ k → k < result → slice_index_or self.now.taken.items k false ≡ true }
    {
        for at in from..self.taken.len() {
            if !self.taken[at] {
                return at;
            }
        }
        self.taken.len()
    }

    /// Takes the least free one, or tells the limit where it is past that: no file has such a sector.
    pub(crate) fn take(&mut self) -> Result<u32, AllocError>
        ensures free { IfOk result (λ n. n < MOST → slice_index_or self.old.taken.items n false ≡ false) }
        ensures least { IfOk result (λ n. (k : ℕ) → self.old.at ≤ k → k < n
            → slice_index_or self.old.taken.items k false ≡ true) }
        ensures few { IfOk result (λ n. n ≤ MOST) }
    {
        let at = self.free_from(self.at).min(MOST);
        self.keep(at)?;
        self.at = at + 1;
        Ok(at as u32)
    }
}
