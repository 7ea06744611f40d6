//! Trees and images that tests make, and what is asked of an update.

use cfb_names::name::{Name, named};
use read_files::read::read_file;
use std::alloc::Global;
use std::process::Abort;
use store_images::image::Image;
use tree_storage::tree::Tree;
use tree_values::bytes::Bytes;
use tree_values::class_id::ClassId;
use write_files::write::write_file;

pub(crate) fn name(rt: &impl Abort, text: &str) -> Name {
    named(text.as_bytes()).expect(rt, "a name")
}

/// So many equal bytes.
pub(crate) fn filled(rt: &impl Abort, alloc: Global, len: usize, byte: u8) -> Bytes {
    let bytes = vec![in alloc; byte; len].expect(rt, "memory");
    Bytes::from_vec(alloc, bytes).expect(rt, "memory")
}

/// A tree without streams.
pub(crate) fn empty(alloc: Global) -> Tree {
    Tree::new(alloc, ClassId::from_bytes([0; 16]), 0)
}

/// A tree of streams in the root: of each its name, its length and its byte.
pub(crate) fn tree_of(rt: &impl Abort, alloc: Global, streams: &[(&str, usize, u8)]) -> Tree {
    let mut tree = empty(alloc);
    for (text, len, byte) in streams {
        tree.put_stream(&[name(rt, text)], filled(rt, alloc, *len, *byte))
            .expect(rt, "a free name");
    }
    tree
}

/// The image of a tree, as it is written first.
pub(crate) fn image_of(rt: &impl Abort, alloc: Global, tree: &Tree) -> Image {
    let file = write_file(alloc, tree).expect(rt, "a file");
    Image::open(alloc, file).expect(rt, "an image")
}

/// A block of a file, or what there is of it.
fn block(file: &[u8], number: usize) -> &[u8] {
    let from = number.saturating_mul(512).min(file.len());
    let to = from.saturating_add(512).min(file.len());
    &file[from..to]
}

/// Whether the blocks of a file that aren't those of an older one are these, rising.
fn are_changed(old: &[u8], new: &[u8], blocks: &[u32]) -> bool {
    let mut at: usize = 0;
    for number in 0..new.len().div_ceil(512) {
        if block(old, number) != block(new, number) {
            if blocks.get(at).copied() != u32::try_from(number).ok() {
                return false;
            }
            at = at.saturating_add(1);
        }
    }
    at == blocks.len()
}

/// The bytes of an image.
fn bytes_of(rt: &impl Abort, alloc: Global, image: &Image) -> Vec<u8> {
    Vec::from_slice(alloc, image.bytes()).expect(rt, "memory")
}

/// An image that had these bytes is read as the tree, and the blocks named are those that differ.
fn check(rt: &impl Abort, alloc: Global, old: &[u8], image: &Image, tree: &Tree, blocks: &[u32]) {
    let again = read_file(alloc, image.bytes()).expect(rt, "a tree");
    let laid_out = write_file(alloc, &again).expect(rt, "a file");
    let wanted = write_file(alloc, tree).expect(rt, "a file");
    assert!(rt; laid_out == wanted);
    assert!(rt; are_changed(old, image.bytes(), blocks));
}

/// Updates an image to a tree. It is read again as the tree, and the blocks named are those that differ.
pub(crate) fn update(rt: &impl Abort, alloc: Global, image: &mut Image, tree: &Tree) -> Vec<u32> {
    let old = bytes_of(rt, alloc, image);
    let blocks = image.update(alloc, tree).expect(rt, "an update");
    check(rt, alloc, &old, image, tree, &blocks);
    blocks
}

/// The same of an update that zeroes what is freed.
pub(crate) fn update_zeroed(rt: &impl Abort, alloc: Global, image: &mut Image, tree: &Tree) {
    let old = bytes_of(rt, alloc, image);
    let blocks = image.update_zeroed(alloc, tree).expect(rt, "an update");
    check(rt, alloc, &old, image, tree, &blocks);
}
