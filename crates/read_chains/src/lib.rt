//! Sectors and chains of a compound file (MS-CFB).
#![tactic(auto)]

pub mod difat;
pub mod fat;
pub mod image;
pub mod links;
mod sectors;
pub mod table;
mod walks;
