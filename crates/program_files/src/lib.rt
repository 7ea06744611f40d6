//! The commands over compound files as a program has them, carried out over the files and folders of a system.
#![tactic(auto)]

pub mod command_lines;
mod edits;
mod folders;
pub mod running;
pub mod tasks;
mod words;
