//! The report of a world, written from what the container shows, from who has a frame's grant, and from both logs.
//!
//! The public world: a container that may stop and start again, its servers, and what is left of the runs before.
#![tactic(auto)]

mod commits;
mod earlier;
mod events;
mod holds;
pub mod past;
mod readers;
pub mod report;
pub mod report_lines;
mod runs;
mod sessions;
mod stops;
pub mod world;
