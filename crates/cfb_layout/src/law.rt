//! Laws of files that are laid out of the parts of a tree.

ghost use Rattle.cfb_layout.specs.Directory.{ImageDenotes, PlacedDenotes};

/// A file in which all parts of a tree lie denotes the tree: its entries depth first and balanced, its short streams in
/// the mini stream and its long ones in sectors behind the other parts, both in the order of their entries.
pub fn placed_denotes()
    ensures { PlacedDenotes }
{}

/// A file laid out of the parts of a tree, with as many FAT sectors as cover it, denotes the tree.
pub fn image_denotes()
    ensures { ImageDenotes }
{}
