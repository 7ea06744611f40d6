//! Editing a compound file in place: its document is read from a store, changed as a tree, and committed again.
#![tactic(auto)]

pub mod editing;
pub mod fault;
pub mod files;
pub mod report;
