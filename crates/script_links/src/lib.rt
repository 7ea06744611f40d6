//! The links to the servers of a script, and its turns, over any host.
#![tactic(auto)]

pub mod links;
pub mod progress;
pub mod turns;
pub mod waiting;
