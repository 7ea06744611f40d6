//! Files that a script opens: what the store of a file holds becomes a frame of its container.
#![tactic(auto)]

pub mod opens;
pub mod refusals;
