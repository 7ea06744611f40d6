//! A disk in memory, which keeps the list of its calls: what reads give after them, and what a crash may leave.
#![tactic(auto)]

pub mod areas;
mod failures;
pub mod memory_disk;
