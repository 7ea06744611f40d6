//! What a command, a reply, a write, the end of a server or a commit makes of objects, and the objects of a file that
//! is opened.
#![tactic(auto)]

pub mod activations;
pub mod closes;
pub mod commits;
pub mod edits;
pub mod leaving;
pub mod opens;
pub mod reaps;
pub mod replies;
pub mod saves;
pub mod takings;
pub mod writes;
