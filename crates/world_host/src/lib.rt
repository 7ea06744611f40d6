//! The host of a container in a world: the container, its files, and the logs of what happened.
#![tactic(auto)]

pub mod commits;
mod doubts;
pub mod host;
mod opens;
mod replying;
pub mod stops;
mod taking;
