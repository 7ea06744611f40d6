//! Entries of the directory that links reach, and those that they don't.

ghost use Rattle.cfb_entries.specs.Entries.{NO_STREAM as NOBODY, child, entry_at, kind, left, right};
ghost use Rattle.cfb_entries.specs.Written.{free_entry_bytes};
ghost use Rattle.write_zeros.specs.Taken.{IsTaken};
ghost use Rattle.std.specs.List.{All, Contains};
ghost use Rattle.std.specs.Prelude.{◌*◌, ◌+◌, ◌<◌, ◌^◌, ◌≡◌, ◌≢◌, IfNone, IfOk, IfSome, IsTrue, List, OnOk, false};
ghost use Rattle.std.specs.Prelude.{length, slice_index_or, ℕ};

use crate::marks::{is_marked, mark};
use cfb_bytes::numbers::read_u32;
use cfb_entries::entries::NO_STREAM;
use std::alloc::{AllocError, Global};

/// The kind of the entry of a stream.
pub(crate) const STREAM: u8 = 2;

/// The bytes of an entry, if all of them are in the directory.
#[tactic(auto, unfolding(cfb_bytes::specs::Bytes::block))]
pub(crate) fn entry_of(directory: &[u8], id: usize) -> Option<&[u8; 128]>
    requires { id < 2 ^ 57 }
    ensures value { IfSome result (λ entry. entry.now ≡ entry_at directory.now id) }
    ensures none { IfNone result (length directory.now < 128 * id + 128) }
{
    let start = 128 * id;
    if directory.len() < start || directory.len() - start < 128 {
        return None;
    }
    directory[start..start + 128].as_array::<128>()
}

/// Notes an entry that a link leads to, unless it leads to nobody, out of the directory or to one that was met.
fn push_link(met: &mut Vec<u32>, marks: &mut [bool], link: u32) -> Result<(), AllocError>
    ensures { OnOk result ((ids : List ℕ) → (link ≢ NOBODY → Contains ids link) → All (Contains ids) met.old.items
        → All (Contains ids) met.new.items) }
{
    if link == NO_STREAM {
        return Ok(());
    }
    if link as usize >= marks.len() {
        return Ok(());
    }
    if is_marked(marks, link as usize) {
        return Ok(());
    }
    mark(marks, link);
    met.push(link)?;
    Ok(())
}

/// Notes the entry that is the child of one, unless that is a stream's.
fn push_child(met: &mut Vec<u32>, marks: &mut [bool], entry: &[u8; 128]) -> Result<(), AllocError>
    ensures { OnOk result ((ids : List ℕ)
        → (kind entry.now ≢ 2 → child entry.now ≢ NOBODY → Contains ids (child entry.now))
        → All (Contains ids) met.old.items → All (Contains ids) met.new.items) }
{
    if entry[66] == STREAM {
        return Ok(());
    }
    push_link(met, marks, read_u32(entry, 76))?;
    Ok(())
}

/// Notes the entries that are siblings of one.
fn push_siblings(
    met: &mut Vec<u32>,
    marks: &mut [bool],
    entry: &[u8; 128],
) -> Result<(), AllocError>
    ensures { OnOk result ((ids : List ℕ) → (left entry.now ≢ NOBODY → Contains ids (left entry.now))
        → (right entry.now ≢ NOBODY → Contains ids (right entry.now))
        → All (Contains ids) met.old.items → All (Contains ids) met.new.items) }
{
    push_link(met, marks, read_u32(entry, 68))?;
    push_link(met, marks, read_u32(entry, 72))?;
    Ok(())
}

/// Notes the entries that the links of an entry lead to. The root's has no siblings.
fn push_links(
    met: &mut Vec<u32>,
    marks: &mut [bool],
    directory: &[u8],
    id: u32,
) -> Result<(), AllocError>
    ensures { OnOk result ((next next_mini ids sectors minis : List ℕ)
        → IsTaken directory.now next next_mini ids sectors minis
        → Contains ids id → All (Contains ids) met.old.items → All (Contains ids) met.new.items) }
{
    let Some(entry) = entry_of(directory, id as usize) else {
        return Ok(());
    };
    push_child(met, marks, entry)?;
    if id == 0 {
        return Ok(());
    }
    push_siblings(met, marks, entry)?;
    Ok(())
}

/// Notes what the links of an entry that was met lead to, if so many were met.
fn push_next(
    met: &mut Vec<u32>,
    marks: &mut [bool],
    directory: &[u8],
    k: usize,
) -> Result<(), AllocError>
    ensures { OnOk result ((next next_mini ids sectors minis : List ℕ)
        → IsTaken directory.now next next_mini ids sectors minis
        → All (Contains ids) met.old.items → All (Contains ids) met.new.items) }
{
    if k >= met.len() {
        return Ok(());
    }
    let id = met[k];
    push_links(met, marks, directory, id)?;
    Ok(())
}

/// The entries that links reach from the root's, with it.
pub(crate) fn reached(alloc: Global, directory: &[u8]) -> Result<Vec<u32>, AllocError>
    ensures { IfOk result (λ v. (next next_mini ids sectors minis : List ℕ)
        → IsTaken directory.now next next_mini ids sectors minis
        → Contains ids 0 → All (Contains ids) v.items) }
{
    let count = directory.len() / 128;
    let mut marks = vec![in alloc; false; count]?;
    let mut met = Vec::new(alloc);
    push_link(&mut met, &mut marks, 0)?;
    for k in 0..count {
        push_next(&mut met, &mut marks, directory, k)?;
    }
    Ok(met)
}

/// An entry that isn't used.
#[tactic(auto, unfolding(cfb_entries::specs::Written::free_entry_bytes))]
fn free_entry() -> [u8; 128]
    ensures { result ≡ free_entry_bytes }
{
    let mut entry = [0; 128];
    entry[68..80].copy_from_slice(&[0xff; 12]);
    entry
}

/// Whether bytes are the same.
fn are_equal(a: &[u8], b: &[u8]) -> bool
    ensures { IsTrue result → a.now ≡ b.now }
{
    a == b
}

/// Whether an entry has these bytes.
fn is_entry(directory: &[u8], id: usize, bytes: &[u8; 128]) -> bool
    requires { id < 2 ^ 57 }
    ensures { IsTrue result → entry_at directory.now id ≡ bytes.now }
{
    match entry_of(directory, id) {
        Some(entry) => are_equal(entry, bytes),
        None => false,
    }
}

/// Whether an entry is marked, or has these bytes.
fn is_marked_or_entry(directory: &[u8], marks: &[bool], id: usize, bytes: &[u8; 128]) -> bool
    requires { id < 2 ^ 57 }
    ensures { IsTrue result → slice_index_or marks.now id false ≡ false → entry_at directory.now id ≡ bytes.now }
{
    if is_marked(marks, id) {
        return true;
    }
    is_entry(directory, id, bytes)
}

/// Whether each entry that isn't marked is written as one that isn't used.
pub(crate) fn are_unmarked_free(directory: &[u8], marks: &[bool]) -> bool
    ensures { IsTrue result → (id : ℕ) → 128 * id < length directory.now → slice_index_or marks.now id false ≡ false
        → entry_at directory.now id ≡ free_entry_bytes }
{
    let free = free_entry();
    for id in 0..directory.len().div_ceil(128) {
        if !is_marked_or_entry(directory, marks, id, &free) {
            return false;
        }
    }
    true
}
