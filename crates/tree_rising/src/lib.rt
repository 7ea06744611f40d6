//! Lists of bytes that lie together in few blocks of memory.
//!
//! Trees that are made of streams in name order.
#![tactic(auto)]

mod blocks;
pub mod lists;
pub mod rising;
pub mod row;
