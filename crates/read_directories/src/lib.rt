//! Reading the directory of a compound file: entries, and the children of each storage (MS-CFB 2.6).
//!
//! The children of a storage in the order of their names.
#![tactic(auto)]

mod bytes;
pub mod entries;
pub mod held;
pub mod sorting;
