//! What a container's steps look up and check: where frames and objects stand, which servers run, what a verb asks, and
//! what a command is refused for.
#![tactic(auto)]

pub mod checks;
pub mod contents;
pub mod frames;
pub mod lookups;
pub mod objects;
pub mod servers;
pub mod verbs;
