//! Reading only the blocks of a compound file that its listing needs.
#![tactic(auto)]

mod chains;
pub mod fault;
mod listing;
mod putting;
pub mod reading;
pub mod runs;
mod sectors;
pub mod source;
