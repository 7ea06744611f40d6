//! Writing the directory of a compound file: entries, and trees of siblings (MS-CFB 2.6).
#![tactic(auto)]

pub mod law;
pub mod links;
pub mod write;
