//! What is told of a compound file that is refused: what is wrong with it, where that is, and how it is written.
#![tactic(auto)]

mod bytes;
mod json_form;
mod lines;
mod paths;
pub mod spot;
pub mod telling;
