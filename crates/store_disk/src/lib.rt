//! A disk over two files: loops over calls of the system that may do less than they are asked.
#![tactic(auto)]

pub mod disk_files;
pub mod file_disk;
mod loops;
pub mod names;
pub mod opening;
pub mod system_files;
pub mod system_names;
