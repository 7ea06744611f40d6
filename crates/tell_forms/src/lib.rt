//! How the outline of a compound file is told: in lines, as one JSON value for programs, and in columns for eyes.
#![tactic(auto)]

pub mod asked_listings;
mod class_names;
mod json_form;
pub mod laws;
mod lines_form;
mod long_form;
mod paths;
mod stream_names;
