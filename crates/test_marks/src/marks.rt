//! Two requests for memory that nothing else makes. `tests/refused_memory` runs a test once for each request between
//! the two, and refuses that one. Without it they do nothing.

use std::alloc::{AllocError, Global};

/// How many bytes are asked for where requests begin to be refused.
const BEGIN: usize = 0x5eed1;

/// How many where none is refused any more.
const END: usize = 0x5eed2;

/// Asks for so many bytes, and gives them back.
fn mark(alloc: Global, bytes: usize) {
    let asked: Result<Vec<u8>, AllocError> = Vec::with_capacity(alloc, bytes);
    drop(asked);
}

/// From here on requests may be refused.
pub fn begin(alloc: Global) {
    mark(alloc, BEGIN);
}

/// From here on none is.
pub fn end(alloc: Global) {
    mark(alloc, END);
}
