//! Names of directory entries of a compound file (MS-CFB 2.6.1), and why a name or a directory is refused.
#![tactic(auto)]

pub mod fault;
pub mod key;
pub mod name;
