//! How a save under another name goes on: once each content of its frame is there, the frame hands off, and each of its
//! objects that isn't passive is asked to give its storage away. All memory for it is taken before.
//!
//! How frames' menus and border pass from object to object: what a reply tells of a frame, who is told of a grant, and
//! which grants the end of a server frees.
#![tactic(auto)]

pub mod grants;
pub mod handing;
pub mod rooms;
