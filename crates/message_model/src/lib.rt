//! What bytes between a container and its servers mean: frames, their byte form, and the faults that bytes show.
#![tactic(auto)]

pub mod codes;
pub mod fault;
pub mod frame;
pub mod laws;
