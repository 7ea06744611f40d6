//! A thousand random edits, one after another, beside a list of what each stream has to be.

use crate::runs::{document_of, edit, is_of, made};
use cfb_names::name::{Name, named};
use std::alloc::Global;
use std::process::Abort;
use text_spelling::path::Path;
use tree_edits::change::Change;
use tree_storage::tree::Tree;
use tree_values::bytes::Bytes;
use tree_values::class_id::ClassId;

/// How many bytes a stream has.
const SIZES: [u32; 8] = [0, 1, 64, 65, 2000, 4095, 4096, 9000];

/// How many names there are.
const NAMES: usize = 8;

/// The streams that there are, by the numbers of their names: of each its length and its byte.
type Streams = [Option<(u32, u8)>; NAMES];

/// The next one of a row of random numbers.
fn next(seed: &mut u64) -> usize {
    *seed = seed
        .wrapping_mul(6_364_136_223_846_793_005)
        .wrapping_add(1_442_695_040_888_963_407);
    (*seed >> 40) as usize
}

fn letter(number: usize) -> [u8; 1] {
    [b'A'.saturating_add((number % NAMES) as u8)]
}

fn name(rt: &impl Abort, number: usize) -> Name {
    named(&letter(number)).expect(rt, "a name")
}

fn path(rt: &impl Abort, alloc: Global, number: usize) -> Path {
    let path = Path::parse(alloc, &letter(number)).expect(rt, "memory");
    path.expect(rt, "a path")
}

/// The tree of streams.
fn tree_of(rt: &impl Abort, alloc: Global, streams: &Streams) -> Tree {
    let mut tree = Tree::new(alloc, ClassId::from_bytes([0; 16]), 0);
    for number in 0..NAMES {
        if let Some((len, byte)) = streams[number] {
            let bytes = vec![in alloc; byte; len as usize].expect(rt, "memory");
            let bytes = Bytes::from_vec(alloc, bytes).expect(rt, "memory");
            tree.put_stream(&[name(rt, number)], bytes)
                .expect(rt, "a free name");
        }
    }
    tree
}

/// A random change, what it has to make of the streams, and whether it may be made.
fn random_change(
    rt: &impl Abort,
    alloc: Global,
    seed: &mut u64,
    streams: &mut Streams,
) -> (Change, bool) {
    let number = next(seed) % NAMES;
    match next(seed) % 4 {
        0 => {
            let was = streams[number].is_some();
            streams[number] = None;
            (Change::Remove(path(rt, alloc, number)), was)
        }
        1 => renamed(rt, alloc, number, next(seed) % NAMES, streams),
        _ => {
            let len = SIZES[next(seed) % 8];
            let byte = (next(seed) % 250) as u8;
            streams[number] = Some((len, byte));
            (Change::Fill(path(rt, alloc, number), len, byte), true)
        }
    }
}

/// A change of a name.
fn renamed(
    rt: &impl Abort,
    alloc: Global,
    number: usize,
    other: usize,
    streams: &mut Streams,
) -> (Change, bool) {
    let change = Change::Rename(path(rt, alloc, number), path(rt, alloc, other));
    let number = number % NAMES;
    let other = other % NAMES;
    if streams[number].is_none() || (number != other && streams[other].is_some()) {
        return (change, false);
    }
    let stream = streams[number];
    streams[number] = None;
    streams[other] = stream;
    (change, true)
}

/// Makes one to three random changes of a document at once. Where one may not be made, all of them leave the document
/// and the streams as they were.
fn step(
    rt: &impl Abort,
    alloc: Global,
    seed: &mut u64,
    document: &[u8],
    streams: &mut Streams,
) -> (Vec<u8>, bool) {
    let mut after = *streams;
    let mut changes = Vec::new(alloc);
    let mut is_allowed = true;
    for line in 0..1 + next(seed) % 3 {
        let (change, may) = random_change(rt, alloc, seed, &mut after);
        changes.push((line, change)).expect(rt, "memory");
        is_allowed = is_allowed && may;
    }
    let ending = edit(rt, alloc, document, changes, next(seed) % 4 == 0);
    assert!(rt; ending.told.is_ok() == is_allowed);
    let left = document_of(&ending.disk);
    assert!(rt; is_allowed || left == document);
    if is_allowed {
        *streams = after;
    }
    (
        Vec::from_slice(alloc, left).expect(rt, "memory"),
        is_allowed,
    )
}

#[test]
fn random_edits_make_what_they_have_to(rt: HostRuntime) {
    let alloc = rt.alloc();
    let mut seed = 2026;
    let mut streams: Streams = [None; NAMES];
    let mut document = made(&rt, alloc, "");
    let mut done: u32 = 0;
    for _ in 0..1000 {
        let (left, is_done) = step(&rt, alloc, &mut seed, &document, &mut streams);
        document = left;
        if is_done {
            done = done.saturating_add(1);
        }
        let tree = tree_of(&rt, alloc, &streams);
        assert!(rt; is_of(&rt, alloc, &document, &tree));
    }
    assert!(rt; done > 300, "{done}");
    assert!(rt; done < 900, "{done}");
}
