//! Images that are made of trees: laid out anew, or in the sectors of another image.

use crate::trees::{image_of, tree_of};
use std::alloc::Global;
use std::process::Abort;
use store_images::image::Image;
use tree_storage::tree::Tree;
use write_files::write::write_file;

fn made(rt: &impl Abort, alloc: Global, tree: &Tree) -> Image {
    Image::made(alloc, tree).expect(rt, "an image")
}

fn with_tree(rt: &impl Abort, alloc: Global, image: &Image, tree: &Tree) -> Image {
    image.with_tree(alloc, tree).expect(rt, "an image")
}

/// Whether an image is a tree's, laid out anew.
fn is_anew(rt: &impl Abort, alloc: Global, image: &Image, tree: &Tree) -> bool {
    image.bytes() == write_file(alloc, tree).expect(rt, "a file").as_slice()
}

#[test]
fn an_image_that_is_made_is_laid_out_anew(rt: HostRuntime) {
    let alloc = rt.alloc();
    let tree = tree_of(&rt, alloc, &[("A", 4096, 1), ("B", 100, 2)]);
    assert!(rt; is_anew(&rt, alloc, &made(&rt, alloc, &tree), &tree));
}

#[test]
fn a_tree_takes_the_sectors_of_an_older_image(rt: HostRuntime) {
    let alloc = rt.alloc();
    let old = tree_of(&rt, alloc, &[("A", 4096, 1), ("B", 4096, 2), ("C", 100, 3)]);
    let new = tree_of(&rt, alloc, &[("B", 4096, 2), ("C", 100, 3)]);
    let older = image_of(&rt, alloc, &old);
    let image = with_tree(&rt, alloc, &older, &new);
    let mut updated = older.copy(alloc).expect(&rt, "memory");
    let _ = updated.update_zeroed(alloc, &new).expect(&rt, "an update");
    assert!(rt; image.bytes() == updated.bytes() && !is_anew(&rt, alloc, &image, &new));
}

#[test]
fn a_tree_that_would_be_twice_as_long_so_is_laid_out_anew(rt: HostRuntime) {
    let alloc = rt.alloc();
    let old = tree_of(&rt, alloc, &[("A", 40_960, 1), ("B", 4096, 2)]);
    let new = tree_of(&rt, alloc, &[("B", 4096, 2)]);
    let image = with_tree(&rt, alloc, &image_of(&rt, alloc, &old), &new);
    assert!(rt; is_anew(&rt, alloc, &image, &new));
}
