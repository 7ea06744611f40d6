//! A disk that couldn't be opened.

use store_model::fault::StoreFault;

/// Why a disk couldn't be opened, and the disk.
#[derive(Drop)]
pub struct Refused<D> {
    /// Why.
    pub fault: StoreFault,
    /// The disk, handed back.
    pub disk: D,
}
