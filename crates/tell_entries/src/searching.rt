//! Searching a directory for an entry with a fault of its own, whatever is wrong with others.

ghost use Rattle.cfb_entries.specs.Entries.{MayRefuseEntry, NO_STREAM as NOBODY, child, entry_at, left, right};
ghost use Rattle.cfb_names.specs.declared.fault.DirFault.TheVariants.{BadEntry};
ghost use Rattle.tell_entries.specs.Searches.{AreAllMet, AreMet, IsAhead, IsMetAtFault, IsOpening, IsSearch};
ghost use Rattle.tell_entries.specs.Searches.{IsWayAtFault, Waits};
ghost use Rattle.tell_entries.specs.Ways.{IsWay, end_of};
ghost use Rattle.cfb_faults.specs.Faults.{IsStorage};
ghost use Rattle.std.specs.List.{All};
ghost use Rattle.std.specs.Prelude.{[], ◌∷◌, ◌++◌, ◌≡◌, ◌≢◌, ◌<◌, ◌≤◌, ◌+◌, ◌-◌, ◌*◌, IfNone, IfOk, IfSome, List, OnOk};
ghost use Rattle.std.specs.Prelude.{false, length, slice_index, slice_index_or, true, ℕ};

use crate::own_faults::{ENTRY, has_fault, kind_of, number_of};
use cfb_names::fault::DirFault;
use std::alloc::{AllocError, Global};

/// The value of a missing sibling or child.
const NO_STREAM: u32 = 0xFFFFFFFF;

/// The kinds of a storage and of the root.
const STORAGE: u8 = 1;

const ROOT: u8 = 5;

/// Where the links of an entry stand in it.
const LEFT: usize = 68;

const RIGHT: usize = 72;

const CHILD: usize = 76;

/// A link that is still to be followed, of a storage with a place among the entries that were met.
#[derive(Clone, Copy)]
pub(crate) struct Ahead {
    /// The number that it names.
    pub(crate) to: u32,
    /// The place of the storage.
    pub(crate) parent: usize,
}

/// The entries that links reach from the root of a directory, whatever is wrong with the links.
#[derive(Drop)]
pub struct Met {
    /// The root, and then each with the place of the storage whose child it is.
    pub ids: Vec<u32>,
    /// The places of these storages.
    pub parents: Vec<usize>,
    /// Whether an entry was met, by its number; it may be told of the root or not.
    pub seen: Vec<bool>,
}

/// What a search has come to.
#[derive(Drop)]
struct Search {
    /// The entries that were met: the root, and then each with the place of the storage whose child it is.
    ids: Vec<u32>,
    parents: Vec<usize>,
    /// Which entries' links were added to those ahead, and how many others there are.
    seen: Vec<bool>,
    unseen: usize,
    /// The links that are still to be followed.
    ahead: Vec<Ahead>,
}

/// Whether an entry lies in a directory.
fn is_inside(directory: &[u8], id: u32) -> bool
    ensures there { result ≡ true → 128 * id < length directory.now }
    ensures past { result ≡ false → length directory.now ≤ 128 * id }
{
    ENTRY * (id as usize) < directory.len()
}

/// The search of a directory that has met the root alone.
fn search_of(alloc: Global, directory: &[u8]) -> Result<Search, AllocError>
    requires some { 128 ≤ length directory.now }
    requires whole { (m : ℕ) × (length directory.now ≡ 128 * m) }
    ensures { IfOk result (λ s. (fault : DirFault) → (MayRefuseEntry directory.now 0 fault → ⊥)
        → IsSearch directory.now fault s.ids.items s.parents.items s.seen.items s.ahead.items s.unseen) }
{
    let count = directory.len() / ENTRY;
    let ids = vec![in alloc; 0; 1]?;
    let parents = vec![in alloc; 0; 1]?;
    let seen = vec![in alloc; false; count]?;
    let ahead = root_ahead(alloc, directory)?;
    Ok(Search {
        ids,
        parents,
        seen,
        unseen: count,
        ahead,
    })
}

/// The link of the root to its children, if it is a root.
fn root_ahead(alloc: Global, directory: &[u8]) -> Result<Vec<Ahead>, AllocError>
    requires { 128 ≤ length directory.now }
    ensures links { IfOk result (λ v. All (IsAhead directory.now (0 ∷ [])) v.items) }
    ensures child { IfOk result (λ v. IsStorage directory.now 0 → Waits v.items (child (entry_at directory.now 0))) }
{
    let mut ahead = Vec::new(alloc);
    if kind_of(directory, 0) != ROOT {
        return Ok(ahead);
    }
    ahead.push(Ahead {
        to: number_of(directory, 0, CHILD),
        parent: 0,
    })?;
    Ok(ahead)
}

/// The storage of a link that leads outside, where that is the fault.
fn outside_of(fault: DirFault, parent: usize) -> Option<usize>
    ensures told { IfSome result (λ k. (k ≡ parent) × (fault ≡ BadEntry)) }
    ensures other { IfNone result (fault ≢ BadEntry) }
{
    if fault == DirFault::BadEntry {
        return Some(parent);
    }
    None
}

/// Adds the links of an entry to its siblings to those ahead.
fn push_around(
    directory: &[u8],
    ahead: &mut Vec<Ahead>,
    id: u32,
    parent: usize,
) -> Result<(), AllocError>
    requires { 128 * id + 128 ≤ length directory.now }
    ensures { OnOk result (ahead.new.items ≡ ahead.old.items ++ record {
      to = right (entry_at directory.now id);
      parent = parent;
    } ∷ record { to = left (entry_at directory.now id); parent = parent } ∷ []) }
{
    ahead.push(Ahead {
        to: number_of(directory, id, RIGHT),
        parent,
    })?;
    ahead.push(Ahead {
        to: number_of(directory, id, LEFT),
        parent,
    })?;
    Ok(())
}

/// Adds the link of a storage to its children to those ahead.
fn push_child(
    directory: &[u8],
    ahead: &mut Vec<Ahead>,
    id: u32,
    place: usize,
) -> Result<(), AllocError>
    requires inside { 128 * id + 128 ≤ length directory.now }
    requires below { id ≢ 0 }
    ensures kept { OnOk result ((more : List Ahead) × (ahead.new.items ≡ ahead.old.items ++ more)
        × IsOpening directory.now id place more) }
{
    if kind_of(directory, id) != STORAGE {
        return Ok(());
    }
    ahead.push(Ahead {
        to: number_of(directory, id, CHILD),
        parent: place,
    })?;
    Ok(())
}

/// Meets an entry to which a link leads, and adds its own links to those ahead. The place of the entry where it has the
/// fault.
fn enter(
    directory: &[u8],
    search: &mut Search,
    link: Ahead,
    fault: DirFault,
) -> Result<Option<usize>, AllocError>
    requires below { link.to ≢ 0 }
    requires somebody { link.to ≢ NOBODY }
    requires inside { 128 * link.to < length directory.now }
    requires new { slice_index_or search.old.seen.items link.to true ≡ false }
    requires is { IsSearch directory.now fault search.old.ids.items search.old.parents.items search.old.seen.items
        (search.old.ahead.items ++ link ∷ []) search.old.unseen }
    ensures met { IfOk result
        (λ v. IfSome v (λ k. AreMet directory.now search.new.ids.items search.new.parents.items
        × IsMetAtFault directory.now fault search.new.ids.items k)) }
    ensures is { IfOk result
        (λ v. IfNone v (IsSearch directory.now fault search.new.ids.items search.new.parents.items
        search.new.seen.items search.new.ahead.items search.new.unseen)) }
    ensures fewer { IfOk result
        (λ v. IfNone v (3 * search.new.unseen + length search.new.ahead.items ≤ 3 * search.old.unseen
        + length search.old.ahead.items)) }
{
    let place = search.ids.len();
    search.ids.push(link.to)?;
    search.parents.push(link.parent)?;
    if has_fault(directory, link.to, fault) {
        return Ok(Some(place));
    }
    search.seen[link.to as usize] = true;
    search.unseen = search.unseen.saturating_sub(1);
    push_around(directory, &mut search.ahead, link.to, link.parent)?;
    push_child(directory, &mut search.ahead, link.to, place)?;
    Ok(None)
}

/// Adds the links of the root to those ahead, to which a link leads as to a child.
fn enter_root(directory: &[u8], search: &mut Search, link: Ahead) -> Result<(), AllocError>
    requires root { link.to ≡ 0 }
    requires some { 128 ≤ length directory.now }
    requires new { slice_index_or search.old.seen.items 0 true ≡ false }
    ensures is { OnOk result ((fault : DirFault)
        → IsSearch directory.now fault search.old.ids.items search.old.parents.items search.old.seen.items
        (search.old.ahead.items ++ link ∷ []) search.old.unseen
        → IsSearch directory.now fault search.new.ids.items search.new.parents.items search.new.seen.items
        search.new.ahead.items search.new.unseen) }
    ensures fewer { OnOk result (search.new.unseen ≡ search.old.unseen - 1) }
    ensures added { OnOk result (length search.new.ahead.items ≡ length search.old.ahead.items + 2) }
{
    search.seen[0] = true;
    search.unseen = search.unseen.saturating_sub(1);
    push_around(directory, &mut search.ahead, 0, link.parent)?;
    Ok(())
}

/// Follows the last of the links ahead. The place of an entry that was met, where that has the fault.
fn step(directory: &[u8], search: &mut Search, fault: DirFault) -> Result<Option<usize>, AllocError>
    requires some { 0 < length search.old.ahead.items }
    requires is { IsSearch directory.now fault search.old.ids.items search.old.parents.items search.old.seen.items
        search.old.ahead.items search.old.unseen }
    ensures met { IfOk result
        (λ v. IfSome v (λ k. AreMet directory.now search.new.ids.items search.new.parents.items
        × IsMetAtFault directory.now fault search.new.ids.items k)) }
    ensures is { IfOk result
        (λ v. IfNone v (IsSearch directory.now fault search.new.ids.items search.new.parents.items
        search.new.seen.items search.new.ahead.items search.new.unseen)) }
    ensures fewer { IfOk result
        (λ v. IfNone v (3 * search.new.unseen + length search.new.ahead.items < 3 * search.old.unseen
        + length search.old.ahead.items)) }
{
    let Some(link) = search.ahead.pop() else {
        return Ok(None);
    };
    if link.to == NO_STREAM {
        return Ok(None);
    }
    if !is_inside(directory, link.to) {
        return Ok(outside_of(fault, link.parent));
    }
    if is_seen(&search.seen, link.to) {
        return Ok(None);
    }
    if link.to == 0 {
        enter_root(directory, search, link)?;
        return Ok(None);
    }
    enter(directory, search, link, fault)
}

/// Whether an entry's links were added before.
fn is_seen(seen: &[bool], id: u32) -> bool
    requires { id < length seen.now }
    ensures { result ≡ slice_index_or seen.now id true }
{
    seen[id as usize]
}

/// The way to an entry that was met, by its place among them. Refused for want of memory alone.
pub fn way_to(
    alloc: Global,
    directory: &[u8],
    ids: &[u32],
    parents: &[usize],
    place: usize,
) -> Result<Vec<u32>, AllocError>
    requires met { AreMet directory.now ids.now parents.now }
    requires inside { place < length ids.now }
    ensures way { IfOk result (λ v. IsWay directory.now v.items) }
    ensures end { IfOk result (λ v. end_of v.items ≡ slice_index ids.now place) }
{
    let mut way = Vec::new(alloc);
    let mut at = place;
    while at > 0 {
        way.push(ids[at])?;
        at = parents[at];
    }
    way.reverse();
    Ok(way)
}

/// Follows the links ahead until an entry with the fault is met, whose place it gives, or none is ahead.
fn follow(
    directory: &[u8],
    search: &mut Search,
    fault: DirFault,
) -> Result<Option<usize>, AllocError>
    requires is { IsSearch directory.now fault search.old.ids.items search.old.parents.items search.old.seen.items
        search.old.ahead.items search.old.unseen }
    ensures met { IfOk result
        (λ v. IfSome v (λ k. AreMet directory.now search.new.ids.items search.new.parents.items
        × IsMetAtFault directory.now fault search.new.ids.items k)) }
    ensures all { IfOk result
        (λ v. IfNone v (IsSearch directory.now fault search.new.ids.items search.new.parents.items
        search.new.seen.items [] search.new.unseen)) }
{
    while !search.ahead.is_empty() {
        let found = step(directory, search, fault)?;
        if let Some(place) = found {
            return Ok(Some(place));
        }
    }
    Ok(None)
}

/// The entries that links reach from the root of a directory, each met once, whatever is wrong with them. Refused for
/// want of memory alone.
pub fn meet_all(alloc: Global, directory: &[u8]) -> Result<Met, AllocError>
    requires some { 128 ≤ length directory.now }
    requires whole { (m : ℕ) × (length directory.now ≡ 128 * m) }
    ensures { IfOk result (λ m. AreAllMet directory.now m.ids.items m.parents.items m.seen.items) }
{
    let mut search = search_of(alloc, directory)?;
    follow(directory, &mut search, DirFault::NoMemory)?;
    Ok(Met {
        ids: search.ids,
        parents: search.parents,
        seen: search.seen,
    })
}

/// The way to an entry of a directory that has a fault of its own, or to a storage from which links lead outside where
/// that is the fault. None where no entry that links reach has it, whatever else is wrong with the links.
pub(crate) fn find_own(
    alloc: Global,
    directory: &[u8],
    fault: DirFault,
) -> Result<Option<Vec<u32>>, AllocError>
    requires some { 128 ≤ length directory.now }
    requires whole { (m : ℕ) × (length directory.now ≡ 128 * m) }
    ensures there { IfOk result
        (λ v. IfSome v (λ way. IsWay directory.now way.items × IsWayAtFault directory.now fault way.items)) }
    ensures nowhere { IfOk result
        (λ v. IfNone v ((way : List ℕ) → IsWay directory.now way → IsWayAtFault directory.now fault way → ⊥)) }
{
    if has_fault(directory, 0, fault) {
        return Ok(Some(Vec::new(alloc)));
    }
    let mut search = search_of(alloc, directory)?;
    let found = follow(directory, &mut search, fault)?;
    match found {
        Some(place) => {
            let way = way_to(alloc, directory, &search.ids, &search.parents, place)?;
            Ok(Some(way))
        }
        None => Ok(None),
    }
}
