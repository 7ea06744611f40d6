//! The entries of a directory in less memory than they take in a file.
//!
//! A file in memory of which only some blocks were read.
#![tactic(auto)]

pub mod named;
pub mod packed;
pub mod places;
pub mod pool;
