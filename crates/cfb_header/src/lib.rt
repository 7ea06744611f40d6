//! The header of a compound file, and why a file is refused (MS-CFB 2.2).
#![tactic(auto)]

mod bytes;
pub mod fault;
pub mod header;
