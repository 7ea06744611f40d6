//! The streams that OLE keeps beside an object's own (MS-OLEDS 2.3).
//!
//! Documents as values: an object, the tree that a document has, and the document that a tree holds.
#![tactic(auto)]

pub mod comp_obj;
pub mod fault;
pub mod fields;
pub mod laws;
pub mod object;
pub mod ole_stream;
pub mod presentation;
