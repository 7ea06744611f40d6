//! Making a compound file from a description: the text read, the tree that it describes, and its file.
#![tactic(auto)]

pub mod fault;
pub mod making;
pub mod report;
