//! Messages between a container and its servers, as bytes.
#![tactic(auto)]

pub mod decoder;
pub mod encode;
mod feeding;
mod front;
mod unfinished;
