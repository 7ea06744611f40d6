//! What a crash may leave of a disk in memory, for the tests of those who save on one.
#![tactic(auto)]

pub mod images;
