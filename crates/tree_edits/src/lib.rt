//! Lines that change a tree: what they ask for, the files that they name, and the tree that they make of another.
#![tactic(auto)]

pub mod change;
pub mod editing;
pub mod files;
pub mod lines;
mod marks;
