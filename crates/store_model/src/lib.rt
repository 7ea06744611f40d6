//! What a store of documents stands on: the disk as it sees it, the journal, and the laws on both. No code that runs.
#![tactic(auto)]

pub mod area;
pub mod disk;
pub mod fault;
pub mod journal;
pub mod laws;
pub mod limit;
