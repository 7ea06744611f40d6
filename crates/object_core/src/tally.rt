//! A count of objects that were dropped.

use std::alloc::{AllocError, Global};
use std::cell::Cell;
use std::rc::Rc;

/// A counter that several objects share. Each of them raises it once, as it is dropped, so that a test sees that no
/// object is kept past its life, and none is dropped twice. It stops at its last value.
#[derive(Drop)]
pub struct Tally {
    count: Rc<Cell<u32>>,
}

impl Tally {
    /// A counter at zero.
    ///
    /// Refused for want of memory alone.
    pub fn new(alloc: Global) -> Result<Tally, AllocError> {
        Ok(Tally {
            count: Rc::new(alloc, Cell::new(0))?,
        })
    }

    /// The same counter, for another object.
    ///
    /// Refused for want of memory alone.
    pub fn share(&self) -> Result<Tally, AllocError> {
        Ok(Tally {
            count: self.count.clone()?,
        })
    }

    /// The count.
    pub fn count(&self) -> u32 {
        self.count.get()
    }

    /// Counts one more.
    pub fn raise(&self) {
        self.count.set(self.count.get().saturating_add(1));
    }
}
