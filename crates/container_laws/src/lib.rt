//! Laws of a container's steps: what each message, commit and end of a server moves, and what it leaves as it is.
#![tactic(auto)]

pub mod apart_laws;
pub mod commit_laws;
pub mod laws;
pub mod open_laws;
