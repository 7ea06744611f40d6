//! A container as a function of what it is told: its record of frames, objects and servers, its commands, and what each
//! of them, a message, the end of a server and a commit make of the record.
#![tactic(auto)]

pub mod answer;
pub mod command;
pub mod fault;
pub mod grants;
pub mod record;
pub mod server_link;
