//! Histories that only clauses read: lists of what happened, the newest first. They take no memory, and their functions
//! do nothing at run time.
//!
//! Scripts of a container and its servers: their commands, what is printed of each, the host that starts and talks to
//! the servers, and what its history says of the container.
#![tactic(auto)]

pub mod answer;
pub mod calls;
pub mod command;
pub mod history;
pub mod host;
pub mod step;
pub mod values;
