//! What compound files mean: the tree that a file denotes, and the room that a tree needs.
#![tactic(auto)]

pub mod fault;
pub mod law;
pub mod limit;
pub mod need;
