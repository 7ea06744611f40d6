//! Laws of documents and their trees.

ghost use Rattle.ole_streams.specs.Laws.{DocumentIsReadAgain, HoldsOneDocument};

pub use ole_model::laws::{lines_are_read_again, ole_is_read_again, user_type_is_read_again};

/// A tree holds at most one document.
pub fn holds_one_document()
    ensures { HoldsOneDocument }
{}

/// The tree of a document holds it.
pub fn document_is_read_again()
    ensures { DocumentIsReadAgain }
{}
