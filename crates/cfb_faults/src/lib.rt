//! What is wrong with a compound file: the faults of its chains, and of what stands below its root.
#![tactic(auto)]

pub mod law;
