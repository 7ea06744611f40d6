//! Who owns the ends of a connection, by what Linux tells of its sockets.
//!
//! The system's side of servers: a host over child processes and TCP on 127.0.0.1, and the listener of a server.
#![tactic(auto)]

pub mod host;
pub mod listening;
mod owners;
mod port;
mod running;
pub mod sockets;
