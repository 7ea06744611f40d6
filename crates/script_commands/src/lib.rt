//! What a command of a script does over a host, with the turns that it leads to, and what is printed of it.
#![tactic(auto)]

pub mod commands;
mod cutting;
mod ending;
mod holding;
mod launching;
mod ordering;
mod placing;
mod unsaved;
