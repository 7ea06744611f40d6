//! Laws of what compound files denote.

ghost use Rattle.std.specs.Prelude.{List, ℕ, ◌≡◌};
ghost use Rattle.cfb_entries.specs.Tree.{Tree};
ghost use Rattle.cfb_file.specs.Denotes.{Denotes};
ghost use Rattle.cfb_file.specs.EmptyDocument.{empty_document as empty_bytes, empty_tree};
ghost use Rattle.cfb_file.specs.Need.{LeastFat};

/// Bytes denote at most one tree.
pub fn one_tree()
    ensures { (file : List ℕ) (a b : Tree) → Denotes file a → Denotes file b → a ≡ b }
{}

/// The number of FAT sectors that a tree needs is the least that covers all sectors.
pub fn least_fat()
    ensures { LeastFat }
{}

/// The empty document's bytes denote a root without children.
pub fn empty_document()
    ensures { Denotes empty_bytes empty_tree }
{}
