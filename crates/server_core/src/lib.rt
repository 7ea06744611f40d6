//! A server: its activations, and what it does with calls.
#![tactic(auto)]

mod activation;
mod calls;
mod facts;
mod holds;
mod own_accord;
mod picture;
pub mod refusal;
pub mod seats;
pub mod server;
