//! Laws between the store and the files that it keeps: a file that is laid out is never too long for it.
//!
//! A compound file that is kept in memory, and which of its blocks change when its tree does.
#![tactic(auto)]

pub mod changed;
pub mod image;
mod in_place;
pub mod laws;
mod update;
