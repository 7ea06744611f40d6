//! The commands between files and folders.

mod disk_folder;
pub(crate) mod extracting;
mod finding;
pub(crate) mod packing;
mod progress;
