//! Whether nothing stands in a compound file but what its tree takes.
#![tactic(auto)]

mod chains;
mod entries;
mod marks;
mod parts;
mod streams;
pub mod zeroed;
mod zeros;
