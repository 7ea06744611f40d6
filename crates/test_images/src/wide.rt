//! Images of many sectors.

use crate::trees::{image_of, tree_of, update};
use write_files::write::write_file;

/// With A, B and C a file has 124 FAT sectors, of which a DIFAT sector names 15.
#[test]
fn a_file_with_a_difat_is_updated(rt: HostRuntime) {
    let alloc = rt.alloc();
    let old = tree_of(
        &rt,
        alloc,
        &[("A", 4_000_000, 1), ("B", 4_000_000, 2), ("C", 100, 3)],
    );
    let mut image = image_of(&rt, alloc, &old);
    let short = tree_of(
        &rt,
        alloc,
        &[("A", 4_000_000, 1), ("B", 4_000_000, 2), ("C", 100, 4)],
    );
    assert_eq!(rt; update(&rt, alloc, &mut image, &short).len(), 1);
    let moved = tree_of(
        &rt,
        alloc,
        &[("B", 4_000_000, 2), ("C", 100, 4), ("D", 4_500_000, 5)],
    );
    let blocks = update(&rt, alloc, &mut image, &moved);
    assert!(rt; blocks.len() < 9_000, "{}", blocks.len());
    let small = tree_of(&rt, alloc, &[("C", 100, 4)]);
    let _ = update(&rt, alloc, &mut image, &small);
    assert!(rt; image.bytes().len() < 100_000);
}

/// The last of the short streams would keep a mini stream for all of them, which the long one leaves no room for.
#[test]
fn past_the_limit_a_file_is_laid_out_anew(rt: HostRuntime) {
    let alloc = rt.alloc();
    let old = tree_of(
        &rt,
        alloc,
        &[
            ("A", 4095, 1),
            ("B", 4095, 2),
            ("C", 4095, 3),
            ("D", 4095, 4),
            ("E", 4095, 5),
            ("T", 4095, 6),
        ],
    );
    let mut image = image_of(&rt, alloc, &old);
    let new = tree_of(&rt, alloc, &[("L", 73_142_784, 7), ("T", 4095, 6)]);
    let _ = image.update(alloc, &new).expect(&rt, "an update");
    assert_eq!(rt; image.bytes().len(), 73_728_512);
    let anew = write_file(alloc, &new).expect(&rt, "a file");
    assert!(rt; image.bytes() == anew.as_slice());
}
