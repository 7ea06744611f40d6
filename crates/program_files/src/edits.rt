//! The commands that change a compound file in place: what lines or a command line ask for.

pub(crate) mod command_lines;
mod documents;
pub(crate) mod editing;
mod shelves;
