//! Chains of sectors and the FAT of a compound file (MS-CFB 2.1, 2.3, 2.4): what they are, and when one is refused.
#![tactic(auto)]

pub mod sector;
