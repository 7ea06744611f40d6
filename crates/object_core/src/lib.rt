//! Embedded objects: the trait that each kind has, and what the kinds are.
#![tactic(auto)]

pub mod classes;
pub mod embedded;
pub mod fault;
pub mod kind_menus;
pub mod laws;
pub mod picture;
pub mod sole_stream;
pub mod stream_names;
pub mod tally;

pub use object_state::Menus;
pub use tree_streams::stored::Stored;
pub use tree_streams::streams::Streams;
pub use tree_values::bytes::Bytes;
pub use tree_values::class_id::ClassId;
