//! Storages and what stands in them.
//!
//! Trees of storages and streams.
#![tactic(auto)]

pub mod fault;
pub mod laws;
pub mod nodes;
pub mod storage;
pub mod tree;
