//! Streams that go from where they lie in one file to those that wait to be written, a piece of them in memory at a
//! time.
//!
//! The tree of a compound file that can be sought in, written anew: each stream goes from where it lies to the writer,
//! and none is held.
//!
//! Writing a compound file anew, with nothing else than its tree.
#![tactic(auto)]

pub mod cleaning;
pub mod fault;
mod listed;
pub mod moving;
pub mod moving_fault;
pub mod reading;
pub mod report;
mod sending;
pub mod stream_moving;
pub mod window;
