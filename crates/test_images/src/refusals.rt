//! Images to which memory is refused: `tests/refused_memory` refuses one request after another. A refused image is as
//! before, and is asked again.

use crate::trees::tree_of;
use cfb_file::fault::WriteFault;
use read_files::fault::ReadFault;
use read_files::read::read_file;
use std::alloc::{AllocError, Global};
use std::process::Abort;
use store_images::image::Image;
use test_marks::marks::{begin, end};
use tree_storage::tree::Tree;
use write_files::write::write_file;

fn write_once(alloc: Global, tree: &Tree) -> Result<Vec<u8>, WriteFault> {
    begin(alloc);
    let file = write_file(alloc, tree);
    end(alloc);
    file
}

/// The file of a tree.
fn written(rt: &impl Abort, alloc: Global, tree: &Tree) -> Vec<u8> {
    match write_once(alloc, tree) {
        Err(WriteFault::NoMemory) => write_once(alloc, tree).expect(rt, "a file"),
        file => file.expect(rt, "a tree that fits"),
    }
}

fn open_once(alloc: Global, file: Vec<u8>) -> Result<Image, ReadFault> {
    begin(alloc);
    let image = Image::open(alloc, file);
    end(alloc);
    image
}

/// The image of a tree, as it is written first.
fn image_of(rt: &impl Abort, alloc: Global, tree: &Tree) -> Image {
    match open_once(alloc, written(rt, alloc, tree)) {
        Err(ReadFault::NoMemory) => open_once(alloc, written(rt, alloc, tree)).expect(
            rt, "an image",
        ),
        image => image.expect(rt, "a file"),
    }
}

fn copy_once(alloc: Global, image: &Image) -> Result<Image, AllocError> {
    begin(alloc);
    let copy = image.copy(alloc);
    end(alloc);
    copy
}

/// An equal image.
fn copied(rt: &impl Abort, alloc: Global, image: &Image) -> Image {
    match copy_once(alloc, image) {
        Ok(copy) => copy,
        Err(_) => copy_once(alloc, image).expect(rt, "memory"),
    }
}

fn update_once(
    alloc: Global,
    image: &mut Image,
    tree: &Tree,
    is_zeroed: bool,
) -> Result<Vec<u32>, WriteFault> {
    begin(alloc);
    let changed = if is_zeroed {
        image.update_zeroed(alloc, tree)
    } else {
        image.update(alloc, tree)
    };
    end(alloc);
    changed
}

/// Which blocks an update changes. Where memory is refused, the image has the bytes of its copy, and is updated again.
fn updated(
    rt: &impl Abort,
    alloc: Global,
    image: &mut Image,
    tree: &Tree,
    is_zeroed: bool,
) -> Vec<u32> {
    let before = copied(rt, alloc, image);
    match update_once(alloc, image, tree, is_zeroed) {
        Err(WriteFault::NoMemory) => {
            assert!(rt; image.bytes() == before.bytes());
            update_once(alloc, image, tree, is_zeroed).expect(rt, "an update")
        }
        changed => changed.expect(rt, "a tree that fits"),
    }
}

/// Whether an image of streams is updated to other ones, and read as these. An update that doesn't zero changes these
/// blocks.
fn is_updated(
    rt: &impl Abort,
    alloc: Global,
    old: &[(&str, usize, u8)],
    new: &[(&str, usize, u8)],
    blocks: &[u32],
) -> bool {
    let tree = tree_of(rt, alloc, new);
    let mut image = image_of(rt, alloc, &tree_of(rt, alloc, old));
    let mut other = copied(rt, alloc, &image);
    let changed = updated(rt, alloc, &mut image, &tree, false);
    let zeroed = updated(rt, alloc, &mut other, &tree, true);
    changed.as_slice() == blocks
        && zeroed.len() >= blocks.len()
        && is_of(rt, alloc, &image, &tree)
        && is_of(rt, alloc, &other, &tree)
}

/// Whether an image is read as a tree.
fn is_of(rt: &impl Abort, alloc: Global, image: &Image, tree: &Tree) -> bool {
    let again = read_file(alloc, image.bytes()).expect(rt, "a tree");
    let laid_out = write_file(alloc, &again).expect(rt, "a file");
    laid_out == write_file(alloc, tree).expect(rt, "a file")
}

#[test]
fn a_refused_update_is_made_again(rt: HostRuntime) {
    let alloc = rt.alloc();
    assert!(rt;
        is_updated(
            &rt,
            alloc,
            &[("A", 3, 1), ("B", 100, 42)],
            &[("A", 3, 4), ("B", 100, 42)],
            &[4]
        )
    );
    assert!(rt;
        is_updated(
            &rt,
            alloc,
            &[("A", 4096, 7), ("B", 4096, 8)],
            &[("B", 4096, 8), ("C", 4096, 9)],
            &[2, 3, 4, 5, 6, 7, 8, 9, 10]
        )
    );
    assert!(rt;
        is_updated(
            &rt,
            alloc,
            &[("B", 4096, 8), ("C", 4096, 9)],
            &[("B", 64, 8), ("C", 4096, 9)],
            &[0, 1, 2, 3, 4]
        )
    );
}

fn made_once(alloc: Global, tree: &Tree) -> Result<Image, WriteFault> {
    begin(alloc);
    let image = Image::made(alloc, tree);
    end(alloc);
    image
}

/// The image of a tree, asked for again where memory is refused.
fn made(rt: &impl Abort, alloc: Global, tree: &Tree) -> Image {
    match made_once(alloc, tree) {
        Err(WriteFault::NoMemory) => made_once(alloc, tree).expect(rt, "an image"),
        image => image.expect(rt, "a tree that fits"),
    }
}

fn with_tree_once(alloc: Global, image: &Image, tree: &Tree) -> Result<Image, WriteFault> {
    begin(alloc);
    let image = image.with_tree(alloc, tree);
    end(alloc);
    image
}

/// The image of a tree in the place of another one, asked for again where memory is refused.
fn with_tree(rt: &impl Abort, alloc: Global, image: &Image, tree: &Tree) -> Image {
    match with_tree_once(alloc, image, tree) {
        Err(WriteFault::NoMemory) => with_tree_once(alloc, image, tree).expect(rt, "an image"),
        image => image.expect(rt, "a tree that fits"),
    }
}

#[test]
fn a_refused_image_is_made_again(rt: HostRuntime) {
    let alloc = rt.alloc();
    let old = tree_of(&rt, alloc, &[("A", 4096, 7), ("B", 4096, 8)]);
    let new = tree_of(&rt, alloc, &[("B", 4096, 8)]);
    let image = made(&rt, alloc, &old);
    assert!(rt; is_of(&rt, alloc, &image, &old));
    let other = with_tree(&rt, alloc, &image, &new);
    assert!(rt; is_of(&rt, alloc, &other, &new) && is_of(&rt, alloc, &image, &old));
}
