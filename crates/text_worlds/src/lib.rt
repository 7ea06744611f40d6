//! Texts of events, and of what each of them was answered.
//!
//! The simulation of a world as a command over a reader and a writer: how its moments are read, and how what they lead
//! to is written.
#![tactic(auto)]

pub mod answers;
pub mod events;
pub mod fault;
pub mod forge;
pub mod lines;
pub mod moments;
pub mod simulation;
