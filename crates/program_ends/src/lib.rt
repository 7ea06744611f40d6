//! The two ends of a command over files: the line that asks for it, and what it leaves, which is a status, a line on
//! standard error or a new file.
#![tactic(auto)]

pub mod command_lines;
pub mod ends;
pub mod journals;
mod links;
pub mod making;
pub mod memory;
pub mod new_file;
mod rights;
pub mod sources;
pub mod starts;
pub mod usage;
