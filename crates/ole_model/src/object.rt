//! An object of a document, as a value.

ghost use Rattle.ole_model.specs.DocOf.{is_object};
ghost use Rattle.std.specs.Prelude.{◌≡◌, IfOk};

use std::alloc::{AllocError, Global};
use tree_streams::area::Area;
use tree_streams::limits::is_within;
use tree_streams::stored::Stored;
use tree_values::bytes::Bytes;
use tree_values::class_id::ClassId;

/// The first length that a user type can't have, so that its size with the closing zero fits four bytes.
const PAST_USER_TYPE: usize = 0xffff_ffff;

/// An object of a document.
#[derive(Drop)]
pub struct DocObject {
    /// Its class id.
    pub class: ClassId,
    /// The name of its kind, as users see it.
    pub user_type: Bytes,
    /// Where it stands in its frame.
    pub area: Area,
    /// What is stored of it.
    pub stored: Stored,
}

impl DocObject {
    /// An equal value.
    pub fn copy(&self, alloc: Global) -> Result<DocObject, AllocError>
        ensures { IfOk result (λ o. o ≡ self.now) }
    {
        Ok(DocObject {
            class: self.class,
            user_type: self.user_type.copy(alloc)?,
            area: self.area,
            stored: self.stored.copy(alloc)?,
        })
    }

    /// Whether a document may hold it: its content is within the limits of what may be stored, and its user type has
    /// fewer than 4,294,967,295 bytes.
    pub fn is_within(&self) -> bool
        ensures { result ≡ is_object self.now }
    {
        is_within(&self.stored) && self.user_type.len() < PAST_USER_TYPE
    }
}
