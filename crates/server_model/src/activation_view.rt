//! What is seen of an activation.

use object_state::States;
use tree_values::class_id::ClassId;

/// What is seen of an activation from outside, but for its content.
#[derive(Clone, Copy)]
pub struct ActivationView {
    /// The class of its object.
    pub class: ClassId,
    /// Whether it is open: it has an object.
    pub opened: bool,
    /// The states of its storage, with the number of its last save, and of its window.
    pub states: States,
    /// The storage grant that it writes under, 0 before any.
    pub s: u32,
    /// The number of its last call.
    pub last: u32,
    /// The grant of its frame that it holds.
    pub g: Option<u32>,
    /// The number of its last write, 0 before any.
    pub w: u32,
}
