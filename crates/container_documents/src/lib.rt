//! The documents of frames, and the files that hold them.
#![tactic(auto)]

pub mod documents;
pub mod reading;
mod room;
