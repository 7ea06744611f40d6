//! Marks by which a test says which of its requests for memory may be refused.
#![tactic(auto)]

pub mod marks;
