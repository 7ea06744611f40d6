//! Where a compound file that is refused is at fault: its header, its FAT, and the chains of the system's own parts.
#![tactic(auto)]

mod fat_faults;
pub mod finding;
pub mod law;
pub mod place;
pub mod root;
pub mod tables;
pub mod walking;
