//! What a file's tree doesn't take, and whether a byte of it that isn't zero is seen.

use crate::trees::{image_of, name, tree_of, update, update_zeroed};
use read_queries::queries::is_file_of;
use std::alloc::Global;
use std::process::Abort;
use store_images::image::Image;
use tree_storage::tree::Tree;
use tree_values::class_id::ClassId;
use write_files::write::write_file;
use write_zeros::zeroed::is_zeroed;

/// Whether what no list takes in a file is zero.
fn is_clean(rt: &impl Abort, alloc: Global, file: &[u8]) -> bool {
    is_zeroed(alloc, file).expect(rt, "memory")
}

/// A tree of streams in mini sectors and in sectors, some in a storage.
fn mixed(rt: &impl Abort, alloc: Global) -> Tree {
    let mut tree = tree_of(
        rt,
        alloc,
        &[
            ("A", 100, 3),
            ("B", 4097, 4),
            ("C", 0, 5),
            ("D", 5120, 6),
            ("E", 64, 7),
        ],
    );
    tree.make_storage(&[name(rt, "S")], ClassId::from_bytes([3; 16]), 5)
        .expect(rt, "a free name");
    tree
}

#[test]
fn what_is_laid_out_is_zeroed(rt: HostRuntime) {
    let alloc = rt.alloc();
    let file = write_file(alloc, &mixed(&rt, alloc)).expect(&rt, "a file");
    assert!(rt; is_clean(&rt, alloc, &file));
    let file = write_file(alloc, &tree_of(&rt, alloc, &[])).expect(&rt, "a file");
    assert!(rt; is_clean(&rt, alloc, &file));
}

/// The image of a tree, updated to another one: kept, something is left and seen; zeroed, nothing is.
fn check(rt: &impl Abort, alloc: Global, old: &[(&str, usize, u8)], new: &[(&str, usize, u8)]) {
    let old = tree_of(rt, alloc, old);
    let new = tree_of(rt, alloc, new);
    let mut kept = image_of(rt, alloc, &old);
    let _ = update(rt, alloc, &mut kept, &new);
    assert!(rt; !is_clean(rt, alloc, kept.bytes()));
    let mut zeroed = image_of(rt, alloc, &old);
    update_zeroed(rt, alloc, &mut zeroed, &new);
    assert!(rt; is_clean(rt, alloc, zeroed.bytes()));
    // What was kept is zeroed by the next update, though no stream changes.
    update_zeroed(rt, alloc, &mut kept, &new);
    assert!(rt; is_clean(rt, alloc, kept.bytes()));
}

#[test]
fn freed_mini_sectors_are_seen(rt: HostRuntime) {
    check(
        &rt,
        rt.alloc(),
        &[("A", 100, 1), ("B", 64, 3)],
        &[("B", 64, 3)],
    );
}

#[test]
fn freed_sectors_are_seen(rt: HostRuntime) {
    check(
        &rt,
        rt.alloc(),
        &[("A", 4096, 1), ("B", 4096, 3)],
        &[("B", 4096, 3)],
    );
}

/// The bytes of an image with one of them set.
fn with_byte(rt: &impl Abort, alloc: Global, image: &Image, at: usize) -> Vec<u8> {
    let mut file = Vec::from_slice(alloc, image.bytes()).expect(rt, "memory");
    if at < file.len() {
        file[at] = 0x91;
    }
    file
}

/// A byte of a file, set, changes the tree that it denotes, or is seen where it should be zero.
fn is_noted(rt: &impl Abort, alloc: Global, image: &Image, tree: &Tree, at: usize) -> bool {
    let file = with_byte(rt, alloc, image, at);
    let same = is_file_of(alloc, &file, tree).expect(rt, "memory");
    !same || !is_clean(rt, alloc, &file)
}

#[test]
fn each_byte_of_an_unused_entry_and_of_the_streams_is_noted(rt: HostRuntime) {
    let alloc = rt.alloc();
    let tree = tree_of(&rt, alloc, &[("A", 100, 3), ("B", 4097, 4)]);
    let image = image_of(&rt, alloc, &tree);
    // The header, a sector of the FAT, one of the directory, whose last entry isn't used, and one of the mini FAT; then
    // the mini stream, and B in nine sectors.
    assert!(rt; image.bytes().len() == 7168);
    for at in 1408..1536 {
        assert!(rt; is_noted(&rt, alloc, &image, &tree, at), "{at}");
    }
    for at in 2048..image.bytes().len() {
        assert!(rt; is_noted(&rt, alloc, &image, &tree, at), "{at}");
    }
}
