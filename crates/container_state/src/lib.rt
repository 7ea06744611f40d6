//! A container's record as it is kept, and what a container makes of a command and of a message: a module for each
//! command. What stays true of every record is kept by the container above; here a step asks for what it needs.
#![tactic(auto)]

mod asks;
mod closes;
pub mod commands;
mod contents;
mod deletes;
mod edits;
mod frames;
mod inserts;
mod kills;
pub mod messages;
mod places;
mod runs;
mod saves;
mod starts;
pub mod state;
mod verbs;
