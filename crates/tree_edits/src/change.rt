//! Changes of a tree, and the lines that ask for them.

use text_spelling::path::Path;
use tree_values::bytes::Bytes;
use tree_values::class_id::ClassId;

/// What is noted of a storage.
#[derive(Clone, Copy)]
pub enum Mark {
    /// Its class id.
    Class(ClassId),
    /// Its state bits.
    State(u32),
}

/// A change of a tree.
#[derive(Drop)]
pub enum Change {
    /// A stream at a path has these bytes: it is new, or they take the place of those that it had.
    Put(Path, Bytes),
    /// A stream at a path has so many bytes that are all the same, likewise.
    Fill(Path, u32, u8),
    /// A new storage at a path, of this class.
    Storage(Path, ClassId),
    /// What stands at a path goes, a storage with all that it holds.
    Remove(Path),
    /// What stands at a path gets another name in its storage: the one of a path of one name.
    Rename(Path, Path),
    /// The storage at a path has this class id or these state bits.
    Mark(Path, Mark),
    /// The root has.
    MarkRoot(Mark),
}

/// What a line asks for.
#[derive(Drop)]
pub enum Line {
    /// A change of a tree.
    Plain(Change),
    /// A stream at a path has the bytes of the file of a name.
    File(Path, Bytes),
}
