//! The facts behind every world, over lookups, the shapes of change, and that each shape keeps each fact.
#![tactic(auto)]

pub mod laws;
