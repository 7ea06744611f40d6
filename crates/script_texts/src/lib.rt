//! Texts of scripts: the commands that lines spell, and what is printed of each.
#![tactic(auto)]

pub mod answers;
pub mod commands;
