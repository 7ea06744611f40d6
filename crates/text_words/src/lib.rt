//! Texts that are cut into words, and numbers that are read.
//!
//! How what programs print is spelled: lines, numbers, bytes, names and class ids.
//!
//! The lines in which faults are printed. It needs no code of other texts, so what programs end with is proved early.
#![tactic(auto)]

pub mod report;
pub mod told;
pub mod words;
