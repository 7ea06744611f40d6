//! Maps of compound files: a character for each sector.
#![tactic(auto)]

pub mod map;
mod painting;
mod parts;
mod sizes;
mod streams;
mod telling;
