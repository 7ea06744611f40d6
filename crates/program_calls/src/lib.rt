//! The calls of the library that other languages link: each reads bytes in memory and puts bytes in memory, and tells
//! its fault by a number.
#![tactic(auto)]

pub mod calls;
pub mod checking;
pub mod editing;
pub mod laws;
mod limit;
pub mod numbers;
mod placing;
