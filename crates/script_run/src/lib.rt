//! Scripts that are carried out over a host: a container's commands, and what its servers answer to them.
#![tactic(auto)]

pub mod laws;
pub mod script;
