//! Streams with names, and what is stored of an embedded object.
//!
//! What documents, messages and a container's record share of an embedded object: its area, and how much may be stored
//! of it.
#![tactic(auto)]

pub mod area;
pub mod fault;
pub mod limits;
pub mod stored;
pub mod streams;
