//! Documents of embedded objects, over the streams that OLE keeps beside an object's own.
#![tactic(auto)]

pub mod doc;
pub mod document_of;
pub mod document_tree;
pub mod laws;
mod layout;
pub mod names;
