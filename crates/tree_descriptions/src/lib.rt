//! Descriptions of trees: their lines, the commands that these spell, and the tree that is built of them.
#![tactic(auto)]

mod building;
mod command;
pub mod description;
pub mod fault;
mod run;
