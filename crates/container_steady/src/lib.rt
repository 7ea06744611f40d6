//! What every record of a container keeps, whatever it is told, and what follows from it.
#![tactic(auto)]

pub mod record_laws;
