//! Each step of a container keeps what every record keeps, whatever it is told.
#![tactic(auto)]

pub mod steady_laws;
