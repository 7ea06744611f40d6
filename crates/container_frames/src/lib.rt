//! What a step of a container makes of its frames.
#![tactic(auto)]

pub mod frames_laws;
