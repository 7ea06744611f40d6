//! Storages that are walked child by child, whatever holds them.
//!
//! What the file of a tree has before its streams are sent: its counts, its header, its tables, and where the entries
//! of its directory lead, of two walks over the tree.
//!
//! The file of a tree sent to a writer, part by part.
//!
//! Writing whole compound files.
#![tactic(auto)]

mod directory;
mod entries;
pub mod front;
pub mod needs;
pub mod sending;
mod sent_entries;
pub mod sent_streams;
mod storages;
pub mod walks;
pub mod write;
