//! The container of a script: what it is given, each thing noted, and the saves that it asks for, over any host.
#![tactic(auto)]

pub mod container;
pub mod fault;
pub mod saves;
