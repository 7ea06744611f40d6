//! Where the streams of an image are placed.

use crate::trees::{image_of, tree_of, update};
use std::alloc::Global;
use std::process::Abort;

/// An image of streams is updated to other ones, and has then so many bytes and these changed blocks.
fn check(
    rt: &impl Abort,
    alloc: Global,
    old: &[(&str, usize, u8)],
    new: &[(&str, usize, u8)],
    len: usize,
    blocks: &[u32],
) {
    let mut image = image_of(rt, alloc, &tree_of(rt, alloc, old));
    let changed = update(rt, alloc, &mut image, &tree_of(rt, alloc, new));
    assert_eq!(rt; image.bytes().len(), len);
    assert_eq!(rt; changed.as_slice(), blocks);
}

/// Sector 0 has the FAT, 1 the directory, 2 to 9 A and 10 to 17 B: C takes the sectors of A, which goes.
#[test]
fn a_stream_that_stays_keeps_its_sectors(rt: HostRuntime) {
    check(
        &rt,
        rt.alloc(),
        &[("A", 4096, 7), ("B", 4096, 8)],
        &[("B", 4096, 8), ("C", 4096, 9)],
        9728,
        &[2, 3, 4, 5, 6, 7, 8, 9, 10],
    );
}

/// Sector 3 has the mini stream.
#[test]
fn a_short_stream_that_changes_takes_one_block(rt: HostRuntime) {
    check(
        &rt,
        rt.alloc(),
        &[("A", 3, 1), ("B", 100, 0x2a)],
        &[("A", 3, 4), ("B", 100, 0x2a)],
        2560,
        &[4],
    );
}

/// B has its sectors again, 10 to 17, and takes one behind C, 26.
#[test]
fn a_stream_that_grows_moves_no_other(rt: HostRuntime) {
    check(
        &rt,
        rt.alloc(),
        &[("A", 4096, 7), ("B", 4096, 8), ("C", 4096, 9)],
        &[("A", 4096, 7), ("B", 4608, 8), ("C", 4096, 9)],
        14336,
        &[1, 2, 27],
    );
}

/// B leaves the sectors, and the file ends with C still: sectors 2 and 3, which it leaves, have the mini FAT and the
/// mini stream then.
#[test]
fn a_stream_that_shrinks_goes_to_the_mini_stream(rt: HostRuntime) {
    check(
        &rt,
        rt.alloc(),
        &[("B", 4096, 8), ("C", 4096, 9)],
        &[("B", 64, 8), ("C", 4096, 9)],
        9728,
        &[0, 1, 2, 3, 4],
    );
}

/// A mini sector that is freed is taken again: the directory, and the mini stream of which it is a part.
#[test]
fn a_mini_sector_is_taken_again(rt: HostRuntime) {
    check(
        &rt,
        rt.alloc(),
        &[("X", 64, 1), ("Y", 64, 2), ("Z", 64, 3)],
        &[("V", 64, 4), ("X", 64, 1), ("Z", 64, 3)],
        2560,
        &[2, 4],
    );
}

/// The file ends with the last sector that something lies in.
#[test]
fn what_is_free_at_the_end_is_cut(rt: HostRuntime) {
    check(
        &rt,
        rt.alloc(),
        &[("A", 4096, 7), ("B", 4096, 8)],
        &[("A", 4096, 7)],
        5632,
        &[1, 2],
    );
}
