//! Every world is safe: the invariant behind it, and the theorem over every list of events.
#![tactic(auto)]

pub mod safe_laws;
