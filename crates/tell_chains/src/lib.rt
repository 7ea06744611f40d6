//! Where the chain of a stream of a compound file that is refused is at fault.
#![tactic(auto)]

pub mod chains;
mod crossings;
mod fates;
pub mod law;
mod links;
mod parts;
pub mod place;
mod streams;
