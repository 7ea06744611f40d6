//! Whole compound files.
#![tactic(auto)]

pub mod fault;
pub mod read;
