//! What a compound file holds, without the bytes of its streams.
//!
//! The entries of a storage in the order of their names, and where an outline says that their streams lie.
#![tactic(auto)]

pub mod filling;
pub mod finding;
pub mod keeping;
pub mod outline;
