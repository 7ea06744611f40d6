//! Files that a command reads: by places where they tell how long they are, and else whole.
#![tactic(auto)]

pub mod opening;
pub mod source;
