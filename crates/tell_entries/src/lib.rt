//! Where the directory of a compound file that is refused is at fault.
#![tactic(auto)]

pub mod directory;
pub mod law;
mod looking;
pub mod own_faults;
pub mod place;
pub mod searching;
pub mod ways;
