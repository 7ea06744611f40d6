//! What trees and messages hold: bytes that are shared, and class ids.
#![tactic(auto)]

pub mod bytes;
pub mod class_id;
