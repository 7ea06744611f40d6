//! Files in memory that follow the model of files, and a store over them: what is proved of stores over files holds of
//! one.
#![tactic(auto)]

pub mod memory_files;
pub mod stores;
