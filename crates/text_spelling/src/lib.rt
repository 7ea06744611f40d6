//! The texts that the program reads and writes: lines, words, paths and numbers, whole inputs and outputs.
#![tactic(auto)]

mod hex_blocks;
pub mod laws;
pub mod path;
pub mod words;
pub mod writing;
