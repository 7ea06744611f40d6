//! What is told of a compound file: the bytes of a stream, the map of its sectors, and whether it is sound.
#![tactic(auto)]

pub mod checking;
pub mod fault;
pub mod getting;
mod judging;
pub mod many;
pub mod mapping;
pub mod report;
mod whole;
