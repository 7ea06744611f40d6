//! Bodies of frames that come in pieces: each blob goes into its own vector as its bytes come.
#![tactic(auto)]

mod back;
mod blob;
pub mod body;
pub mod draft;
mod fields;
mod made;
mod opening;
