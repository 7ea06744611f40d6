//! The parts of a compound file as its writer has them: how much of each there is, the numbers in its tables, its
//! header, and bytes on their way. It needs no tree, so it is proved beside the code of trees.
//!
//! What stands before the streams in a file, and the law that it is the same for all trees with one outline.
#![tactic(auto)]

pub mod counts;
pub mod front;
pub mod law;
pub mod leads;
pub mod pieces;
pub mod streams;
pub mod tables;
