//! Where the sectors of a file go that takes an older one's place: what stays keeps its sectors.
#![tactic(auto)]

mod bytes;
mod directory;
mod free;
pub mod freed;
mod older;
mod parts;
pub mod placing;
mod streams;
mod tables;
pub mod writing;
