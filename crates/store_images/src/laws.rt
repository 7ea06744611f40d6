//! What the store takes, and what the writer makes. Each function is empty: its contract is the law, which is proved.

ghost use Rattle.store_images.specs.Laws.{FilesAreTaken, LimitIs, LimitIsMet};

/// The store's limit is the most bytes that a file can have: its header, and a sector for each entry of the greatest
/// FAT.
pub fn limit_is()
    ensures { LimitIs }
{}

/// A file that the writer lays out of a tree is no longer than a store takes, by what it says of the bytes that it
/// gives: so `commit` never refuses them as `TooBig`.
pub fn files_are_taken()
    ensures { FilesAreTaken }
{}

/// A root with one stream of 73,147,392 bytes, whatever they are, is laid out in just as many bytes as a store takes;
/// with one byte more it is refused.
pub fn limit_is_met()
    ensures { LimitIsMet }
{}
