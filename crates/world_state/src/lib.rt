//! A run of a container in a world: the container, its servers, the messages between them, and what happens.
#![tactic(auto)]

mod deliveries;
mod holds;
pub mod instance;
mod plan;
mod speaking;
pub mod state;
pub mod stock;
