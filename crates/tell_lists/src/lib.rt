//! Listings of compound files, over whatever gives their bytes.
#![tactic(auto)]

pub mod fault;
pub mod listing;
pub mod report;
