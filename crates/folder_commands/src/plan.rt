//! What is made of a tree in a folder.

use tree_values::bytes::Bytes;
use tree_values::class_id::ClassId;

/// What stands at a path of a folder.
#[derive(Drop)]
pub enum Content {
    /// A folder, for a storage of this class id and these state bits.
    Folder(ClassId, u32),
    /// A file of these bytes, for a stream.
    File(Bytes),
}
