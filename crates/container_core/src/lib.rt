//! What a frame shows, as text.
//!
//! A container: its record, which stays true to what every record keeps, its commits, the ends of servers, and the
//! files that it opens.
#![tactic(auto)]

pub mod cells;
mod commits;
pub mod container;
mod frame_images;
mod images;
mod opens;
mod reaps;
pub mod screen;
pub mod strip;
