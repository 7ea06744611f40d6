//! Whether a tree is the one that a file denotes, its streams compared with it one after another.
//!
//! What is asked of a whole compound file in memory: whether it is a tree's, and the bytes of one stream.
#![tactic(auto)]

pub mod comparing;
pub mod queries;
