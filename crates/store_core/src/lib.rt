//! A document on a disk, committed through a journal: a crash at any moment leaves the document from before a commit,
//! or the one after it.
#![tactic(auto)]

mod calls;
mod carry;
mod compare;
mod find;
mod found;
mod held;
pub mod outcome;
pub mod refused;
pub mod resolved;
mod runs;
mod stage;
mod steps;
pub mod store;
