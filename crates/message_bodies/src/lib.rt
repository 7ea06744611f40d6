//! Bodies of frames, read from left to right.
#![tactic(auto)]

pub mod body;
