//! How a compound file is laid out of a tree's parts, and the law that it then denotes the tree.
#![tactic(auto)]

pub mod law;
