//! Documents of several windows, 64 KiB each.

use crate::crashes::{commits, opens};
use crate::runs::{commit, disk, document};
use std::alloc::{AllocError, Global};
use std::process::Abort;

/// Bytes of which no two blocks are alike.
pub(crate) fn bytes_of(alloc: Global, long: usize, seed: u8) -> Result<Vec<u8>, AllocError> {
    let mut bytes = Vec::with_capacity(alloc, long)?;
    for index in 0..long {
        bytes.push((index % 251) as u8 ^ (index / 512 % 256) as u8 ^ seed)?;
    }
    Ok(bytes)
}

/// The same with another byte in each window.
fn changed(alloc: Global, old: &[u8]) -> Result<Vec<u8>, AllocError> {
    let mut bytes = old.to_vec(alloc)?;
    for window in bytes.chunks_mut(65_000) {
        if let Some(first) = window.first_mut() {
            *first = first.wrapping_add(1);
        }
    }
    Ok(bytes)
}

fn wide(rt: &impl Abort, alloc: Global, long: usize, seed: u8) -> Vec<u8> {
    bytes_of(alloc, long, seed).expect(rt, "memory")
}

#[test]
fn a_crash_of_a_wide_commit_leaves_the_old_document_or_the_new_one(rt: HostRuntime) {
    let alloc = rt.alloc();
    let old = wide(&rt, alloc, 140_000, 0);
    // One block in each window, and a last part block.
    let few = changed(alloc, &old).expect(&rt, "memory");
    assert!(rt; commits(&rt, alloc, &old, b"", &few));
    // Each block, of a document that grows and of one that shrinks.
    let longer = wide(&rt, alloc, 150_001, 5);
    assert!(rt; commits(&rt, alloc, &old, b"", &longer));
    assert!(rt; commits(&rt, alloc, &longer, b"", &old));
}

/// A journal in the form of a whole document.
fn whole_journal(alloc: Global, document: &[u8]) -> Result<Vec<u8>, AllocError> {
    let mut journal = b"\x01".to_vec(alloc)?;
    journal.extend_from_slice(&(document.len() as u64).to_le_bytes())?;
    journal.extend_from_slice(document)?;
    Ok(journal)
}

/// The journal of a commit from one document to another, with an open gate.
fn open_journal(rt: &impl Abort, alloc: Global, old: &[u8], new: &[u8]) -> Vec<u8> {
    let (told, after) = commit(alloc, disk(rt, alloc, old, b""), new);
    assert!(rt; told == Some(true));
    let mut journal = after.held().journal.to_vec(alloc).expect(rt, "memory");
    if let Some(gate) = journal.first_mut() {
        *gate = 1;
    }
    journal
}

#[test]
fn a_crash_of_an_open_of_a_wide_journal_leaves_its_document(rt: HostRuntime) {
    let alloc = rt.alloc();
    let new = wide(&rt, alloc, 140_000, 0);
    let journal = whole_journal(alloc, &new).expect(&rt, "memory");
    assert!(rt; opens(&rt, alloc, b"torn", &journal, &new));
    let old = wide(&rt, alloc, 131_072, 9);
    let journal = open_journal(&rt, alloc, &old, &new);
    assert!(rt; opens(&rt, alloc, &old, &journal, &new));
}

/// Whether the journal of one changed block has 529 bytes, with this head.
fn is_one_block(rt: &impl Abort, alloc: Global, old: &[u8], new: &[u8]) -> bool {
    let (told, after) = commit(alloc, disk(rt, alloc, old, b""), new);
    let journal = after.held().journal.as_slice();
    told == Some(true)
        && journal.len() == 529
        && journal.starts_with(b"\0\0\x0a\0\0\0\0\0\x01\x01\0\0\0\x04\0\0\0")
        && document(alloc, after).is_ok()
}

#[test]
fn a_journal_of_one_block_has_its_number_and_its_bytes(rt: HostRuntime) {
    let alloc = rt.alloc();
    let old = wide(&rt, alloc, 2560, 0);
    let mut new = wide(&rt, alloc, 2560, 0);
    assert!(rt; new.len() == 2560);
    for byte in new.iter_mut().skip(2048) {
        *byte = byte.wrapping_add(1);
    }
    assert!(rt; is_one_block(&rt, alloc, &old, &new));
}
