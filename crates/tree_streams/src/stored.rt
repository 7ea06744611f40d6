//! What is stored of an embedded object.

ghost use Rattle.std.specs.Prelude.{[], ◌≡◌, IfOk};

use crate::streams::Streams;
use std::alloc::{AllocError, Global};
use tree_values::bytes::Bytes;

/// What is stored of an embedded object: its own streams and its picture.
#[derive(Drop)]
pub struct Stored {
    /// The streams, in name order.
    pub streams: Streams,
    /// The bytes of the presentation stream, empty for none (MS-OLEDS 2.3.4).
    pub picture: Bytes,
}

impl Stored {
    /// No streams and no picture.
    pub fn new(alloc: Global) -> Stored
        ensures streams { result.streams ≡ [] }
        ensures picture { result.picture ≡ [] }
    {
        Stored {
            streams: Streams::new(alloc),
            picture: Bytes::new(alloc),
        }
    }

    /// An equal value.
    pub fn copy(&self, alloc: Global) -> Result<Stored, AllocError>
        ensures { IfOk result (λ s. s ≡ self.now) }
    {
        Ok(Stored {
            streams: self.streams.copy(alloc)?,
            picture: self.picture.copy(alloc)?,
        })
    }
}
