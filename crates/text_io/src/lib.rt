//! The texts that the program reads and writes: lines, words, paths and numbers, whole inputs and outputs.
//!
//! Texts that are read line by line.
#![tactic(auto)]

pub mod input;
pub mod lines;
pub mod output;
pub mod reading;
