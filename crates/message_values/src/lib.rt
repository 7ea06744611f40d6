//! Messages between a container and its servers, as values.
#![tactic(auto)]

pub mod answer;
pub mod items;
pub mod message;
pub mod operation;
pub mod refusal;
