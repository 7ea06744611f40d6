//! Where a stream of a compound file lies whose place an outline tells, and its bytes copied from there, of which a
//! piece is in memory at a time.
#![tactic(auto)]

pub mod blocks;
pub mod chains;
pub mod copying;
pub mod fault;
pub mod filling;
pub mod tables;
