//! Every story is safe: the invariant behind it, and the theorem over every list of moments.
#![tactic(auto)]

pub mod story_laws;
