//! Compound files as folders: what is made of a tree of storages and streams in a folder, under which names, and where.
//!
//! Making a compound file of a folder: reading the names in it, and what it tells of its storages, and building a tree.
//!
//! Making a folder of the storages and streams of a compound file, each stream copied from where it lies.
#![tactic(auto)]

pub mod chosen;
pub mod extracting;
pub mod fault;
mod finding;
pub mod folder;
pub mod laws;
mod making;
pub mod names;
pub mod notes;
pub mod packed_notes;
pub mod packing;
pub mod packing_laws;
pub mod path;
pub mod plan;
mod planning;
mod seeking;
pub mod streams;
