//! Random trees, and images updated from one to the next.

use crate::trees::{empty, image_of, name, update};
use cfb_names::name::named;
use std::alloc::Global;
use std::process::Abort;
use tree_storage::tree::Tree;
use tree_values::bytes::Bytes;
use tree_values::class_id::ClassId;
use write_files::write::write_file;

/// How many bytes a stream has.
const SIZES: [usize; 12] = [0, 1, 63, 64, 65, 500, 2000, 4095, 4096, 4097, 5200, 9000];

/// The next one of a row of random numbers.
pub(crate) fn next(seed: &mut u64) -> usize {
    *seed = seed
        .wrapping_mul(6_364_136_223_846_793_005)
        .wrapping_add(1_442_695_040_888_963_407);
    (*seed >> 40) as usize
}

/// Bytes of which no two mini sectors that follow one another are alike.
fn bytes(rt: &impl Abort, alloc: Global, len: usize, first: usize) -> Bytes {
    let mut bytes = Vec::new(alloc);
    for k in 0..len {
        bytes
            .push(((k / 64).wrapping_add(first) % 251) as u8)
            .expect(rt, "memory");
    }
    Bytes::from_vec(alloc, bytes).expect(rt, "memory")
}

/// Puts some of the streams A to J below a path of one name, or into the root, most of them as they always are.
fn put_some(rt: &impl Abort, alloc: Global, tree: &mut Tree, seed: &mut u64, inner: Option<&str>) {
    for letter in b'A'..=b'J' {
        let usual = letter as usize;
        if next(seed) % 3 > 0 {
            let changed = next(seed) % 3 == 0;
            let number = if changed { next(seed) } else { usual };
            let len = SIZES[number % 12];
            let stream = bytes(rt, alloc, len, next(seed) % 2);
            let own = named(&[letter]).expect(rt, "a name");
            match inner {
                Some(text) => tree.put_stream(&[name(rt, text), own], stream),
                None => tree.put_stream(&[own], stream),
            }
            .expect(rt, "a free name");
        }
    }
}

/// A random tree: streams in the root, and in two storages that aren't always there.
fn tree(rt: &impl Abort, alloc: Global, seed: &mut u64) -> Tree {
    let mut tree = empty(alloc);
    put_some(rt, alloc, &mut tree, seed, None);
    for text in ["Inner", "Other"] {
        if next(seed) % 4 > 0 {
            tree.make_storage(&[name(rt, text)], ClassId::from_bytes([3; 16]), 5)
                .expect(rt, "a free name");
            put_some(rt, alloc, &mut tree, seed, Some(text));
        }
    }
    tree
}

/// Updates an image so many times to random trees, and counts how often it isn't as if it were laid out anew.
fn updated(rt: &impl Abort, alloc: Global, seed: &mut u64, times: u32) -> u32 {
    let mut image = image_of(rt, alloc, &tree(rt, alloc, seed));
    let mut kept: u32 = 0;
    for _ in 0..times {
        let tree = tree(rt, alloc, seed);
        let _ = update(rt, alloc, &mut image, &tree);
        let anew = write_file(alloc, &tree).expect(rt, "a file");
        if image.bytes() != anew.as_slice() {
            kept = kept.saturating_add(1);
        }
    }
    kept
}

#[test]
fn random_trees_are_updated_to_random_trees(rt: HostRuntime) {
    let mut seed = 2026;
    let mut kept: u32 = 0;
    for _ in 0..20 {
        kept = kept.saturating_add(updated(&rt, rt.alloc(), &mut seed, 20));
    }
    assert!(rt; kept > 300, "{kept}");
}
