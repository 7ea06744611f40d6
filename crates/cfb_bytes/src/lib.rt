//! Numbers in the bytes of a compound file.
#![tactic(auto)]

pub mod numbers;
