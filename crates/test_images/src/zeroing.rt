//! Updates that zero what is freed: nothing of what goes stands in the file any more, and without the zeros it does.

use crate::random_images::next;
use crate::trees::{empty, filled, image_of, name, tree_of, update, update_zeroed};
use cfb_names::name::{Name, named};
use std::alloc::Global;
use std::process::Abort;
use store_images::image::Image;
use tree_storage::tree::Tree;
use tree_values::class_id::ClassId;

/// How many bytes a stream has: where it has any, two at least in each of its sectors and mini sectors.
const SIZES: [usize; 12] = [0, 2, 63, 64, 66, 500, 2000, 4095, 4096, 4098, 5200, 9000];

/// A byte that streams which go are made of: no two follow one another in the system's parts of a file.
const GONE: u8 = 0x91;

/// What the names and the bytes of some streams are made of.
#[derive(Clone, Copy)]
struct Mark {
    word: &'static str,
    byte: u8,
}

const STAYS: Mark = Mark {
    word: "Stay",
    byte: 0x33,
};

const EVEN: Mark = Mark {
    word: "Even",
    byte: GONE,
};

const ODD: Mark = Mark {
    word: "Odd",
    byte: 0xa2,
};

/// Whether these bytes stand anywhere in a file.
fn stands(file: &[u8], wanted: &[u8]) -> bool {
    let places = file.len().saturating_add(1).saturating_sub(wanted.len());
    for at in 0..places {
        let to = at.saturating_add(wanted.len()).min(file.len());
        if &file[at..to] == wanted {
            return true;
        }
    }
    false
}

/// A word as names are stored, in two bytes a letter.
fn spelled(rt: &impl Abort, alloc: Global, word: &str) -> Vec<u8> {
    let mut bytes = Vec::new(alloc);
    for letter in word.as_bytes() {
        bytes.push(*letter).expect(rt, "memory");
        bytes.push(0).expect(rt, "memory");
    }
    bytes
}

/// Whether a name with this word stands in an image.
fn is_named(rt: &impl Abort, alloc: Global, image: &Image, word: &str) -> bool {
    stands(image.bytes(), &spelled(rt, alloc, word))
}

/// Whether this byte stands in an image twice in a row.
fn is_there(image: &Image, byte: u8) -> bool {
    stands(image.bytes(), &[byte, byte])
}

/// The name of a mark's stream.
fn lettered(rt: &impl Abort, alloc: Global, mark: Mark, letter: u8) -> Name {
    let mut text = Vec::from_slice(alloc, mark.word.as_bytes()).expect(rt, "memory");
    text.push(letter).expect(rt, "memory");
    named(&text).expect(rt, "a name")
}

/// Puts a stream into the root, or into a storage of this name.
fn put(
    rt: &impl Abort,
    alloc: Global,
    tree: &mut Tree,
    inner: Option<&str>,
    own: Name,
    len: usize,
    byte: u8,
) {
    let stream = filled(rt, alloc, len, byte);
    match inner {
        Some(text) => tree.put_stream(&[name(rt, text), own], stream),
        None => tree.put_stream(&[own], stream),
    }
    .expect(rt, "a free name");
}

/// Puts some of a mark's streams A to J into the root, or into a storage, most of them as long as they always are.
fn put_some(
    rt: &impl Abort,
    alloc: Global,
    tree: &mut Tree,
    seed: &mut u64,
    mark: Mark,
    inner: Option<&str>,
) {
    for letter in b'A'..=b'J' {
        if next(seed) % 3 > 0 {
            let changed = next(seed) % 3 == 0;
            let number = if changed { next(seed) } else { letter as usize };
            let own = lettered(rt, alloc, mark, letter);
            put(rt, alloc, tree, inner, own, SIZES[number % 12], mark.byte);
        }
    }
}

/// A random tree: streams that stay and streams of a mark, in the root and in two storages that aren't always there.
fn tree(rt: &impl Abort, alloc: Global, seed: &mut u64, mark: Mark) -> Tree {
    let mut tree = empty(alloc);
    put_some(rt, alloc, &mut tree, seed, STAYS, None);
    put_some(rt, alloc, &mut tree, seed, mark, None);
    for word in [STAYS.word, mark.word] {
        if next(seed) % 4 > 0 {
            tree.make_storage(&[name(rt, word)], ClassId::from_bytes([3; 16]), 5)
                .expect(rt, "a free name");
            put_some(rt, alloc, &mut tree, seed, STAYS, Some(word));
            put_some(rt, alloc, &mut tree, seed, mark, Some(word));
        }
    }
    tree
}

/// Updates an image to a random tree of a mark. Nothing of the other mark stands in it then. Tells whether there was
/// any.
fn replaces(
    rt: &impl Abort,
    alloc: Global,
    image: &mut Image,
    seed: &mut u64,
    marks: [Mark; 2],
) -> bool {
    let [mark, other] = marks;
    let was = is_there(image, other.byte) && is_named(rt, alloc, image, other.word);
    update_zeroed(rt, alloc, image, &tree(rt, alloc, seed, mark));
    assert!(rt; !is_there(image, other.byte) && !is_named(rt, alloc, image, other.word));
    was
}

#[test]
fn nothing_of_a_random_tree_is_left_in_the_next(rt: HostRuntime) {
    let alloc = rt.alloc();
    let mut seed = 1606;
    let mut image = image_of(&rt, alloc, &tree(&rt, alloc, &mut seed, ODD));
    let mut were: u32 = 0;
    for _ in 0..500 {
        if replaces(&rt, alloc, &mut image, &mut seed, [EVEN, ODD]) {
            were = were.saturating_add(1);
        }
        if replaces(&rt, alloc, &mut image, &mut seed, [ODD, EVEN]) {
            were = were.saturating_add(1);
        }
    }
    assert!(rt; were > 900, "{were}");
}

/// Of the streams in an image that is updated to others, something is left where what is freed is kept, and nothing
/// where it is zeroed.
fn check(rt: &impl Abort, alloc: Global, old: &[(&str, usize, u8)], new: &[(&str, usize, u8)]) {
    let old = tree_of(rt, alloc, old);
    let new = tree_of(rt, alloc, new);
    let mut kept = image_of(rt, alloc, &old);
    let _ = update(rt, alloc, &mut kept, &new);
    assert!(rt; is_there(&kept, GONE));
    let mut zeroed = image_of(rt, alloc, &old);
    update_zeroed(rt, alloc, &mut zeroed, &new);
    assert!(rt; !is_there(&zeroed, GONE) && !is_named(rt, alloc, &zeroed, "Old"));
}

#[test]
fn a_stream_that_is_deleted_leaves_nothing(rt: HostRuntime) {
    let alloc = rt.alloc();
    check(
        &rt,
        alloc,
        &[("OldA", 100, GONE), ("Stay", 64, 3)],
        &[("Stay", 64, 3)],
    );
    check(
        &rt,
        alloc,
        &[("OldA", 4096, GONE), ("Stay", 4096, 3)],
        &[("Stay", 4096, 3)],
    );
}

#[test]
fn a_stream_that_moves_leaves_nothing(rt: HostRuntime) {
    let alloc = rt.alloc();
    check(
        &rt,
        alloc,
        &[("M", 640, GONE), ("Stay", 64, 3)],
        &[("M", 64, 5), ("Stay", 64, 3)],
    );
    check(
        &rt,
        alloc,
        &[("M", 4096, GONE), ("Stay", 4096, 3)],
        &[("M", 64, 5), ("Stay", 4096, 3)],
    );
    check(
        &rt,
        alloc,
        &[("M", 100, GONE), ("Stay", 64, 3)],
        &[("M", 4096, 5), ("Stay", 64, 3)],
    );
}

/// A tree of one short stream, and of a storage of ten.
fn tree_with_storage(rt: &impl Abort, alloc: Global) -> Tree {
    let mut tree = tree_of(rt, alloc, &[("Stay", 64, 3)]);
    tree.make_storage(&[name(rt, "Old")], ClassId::from_bytes([3; 16]), 5)
        .expect(rt, "a free name");
    for letter in b'A'..=b'J' {
        let own = lettered(rt, alloc, ODD, letter);
        put(rt, alloc, &mut tree, Some("Old"), own, 64, GONE);
    }
    tree
}

#[test]
fn a_storage_that_is_deleted_leaves_no_entry(rt: HostRuntime) {
    let alloc = rt.alloc();
    let old = tree_with_storage(&rt, alloc);
    let new = tree_of(&rt, alloc, &[("Stay", 64, 3)]);
    let mut kept = image_of(&rt, alloc, &old);
    let _ = update(&rt, alloc, &mut kept, &new);
    assert!(rt; is_named(&rt, alloc, &kept, "Odd"));
    let mut zeroed = image_of(&rt, alloc, &old);
    update_zeroed(&rt, alloc, &mut zeroed, &new);
    assert!(rt; !is_named(&rt, alloc, &zeroed, "Odd") && !is_named(&rt, alloc, &zeroed, "Old"));
    assert!(rt; !is_there(&zeroed, GONE));
}
