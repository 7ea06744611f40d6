//! Trees of storages and streams (MS-CFB 1.3.1, 2.6): what they are, what stands in one, and when one is whole.
//!
//! The directory of a compound file (MS-CFB 2.6): what its entries and its trees of siblings are, and when one is
//! refused.
#![tactic(auto)]

pub mod entries;
pub mod links;
