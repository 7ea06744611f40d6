//! Looking at the entries of a directory for what is wrong with them.

ghost use Rattle.cfb_entries.specs.Entries.{MayRefuseEntry};
ghost use Rattle.cfb_names.specs.declared.fault.DirFault.TheVariants.{NoMemory};
ghost use Rattle.tell_entries.specs.Ways.{IsEntryAtFault, IsLooked, IsMet, IsOfLinks, IsStorageAtFault, IsWay, end_of};
ghost use Rattle.cfb_faults.specs.Faults.{IsChild, IsStorage, key_at};
ghost use Rattle.std.specs.List.{All, Contains};
ghost use Rattle.std.specs.Prelude.{[], ◌≡◌, ◌≢◌, ◌<◌, ◌*◌, ◌⊎◌, IfNone, IfOk, IfSome, false, length, true, ℕ};

use crate::own_faults::{ENTRY, is_of_entry};
use crate::place::EntryPlace;
use crate::searching::find_own;
use crate::ways::{end_of, push_ways, root_way};
use cfb_names::fault::DirFault;
use cfb_names::key::Key;
use cfb_names::name::key;
use read_directories::entries::{Entries, EntryKind};
use std::alloc::{AllocError, Global};
use std::collections::BTreeMap;
use tell_faults::walking::stands_in;

/// How many entries a way has to a storage that stands inside too many others.
const TOO_DEEP: usize = 33;

/// What looking at an entry finds.
#[derive(Drop)]
pub(crate) enum Looked {
    /// The fault that is looked for is there.
    AtFault(EntryPlace),
    /// It is a storage with these children.
    Children(Vec<u32>),
    /// Nothing that is looked for.
    Nothing,
}

/// Whether a fault is the one that is looked for, and no want of memory.
fn is_told(found: DirFault, fault: DirFault) -> bool
    ensures { result ≡ true → (found ≡ fault) × (found ≢ NoMemory) }
{
    if found == DirFault::NoMemory {
        return false;
    }
    found == fault
}

/// The same of the fault of a storage that wasn't opened before.
fn is_told_of(found: DirFault, fault: DirFault, opened: &[u32], id: u32) -> bool
    ensures { result ≡ true → (found ≡ fault) × (found ≢ NoMemory) × (Contains opened.now id → ⊥) }
{
    if !is_told(found, fault) {
        return false;
    }
    !opened.contains(&id)
}

/// What is found where the entry of a way may have the fault that is looked for.
fn at_fault(
    alloc: Global,
    directory: &[u8],
    way: &[u32],
    fault: DirFault,
    is_there: bool,
) -> Result<Looked, AllocError>
    requires way { IsWay directory.now way.now }
    requires there { is_there ≡ true → MayRefuseEntry directory.now (end_of way.now) fault
        ⊎ IsStorageAtFault directory.now way.now fault }
    ensures { IfOk result (IsLooked directory.now way.now fault) }
{
    if is_there {
        let way = Vec::from_slice(alloc, way)?;
        return Ok(Looked::AtFault(EntryPlace::Entry(way)));
    }
    Ok(Looked::Nothing)
}

/// Looks at the entry of a way for a fault, and marks the children that it gives.
fn look(
    alloc: Global,
    directory: &[u8],
    entries: &mut Entries<'_>,
    opened: &mut Vec<u32>,
    way: &[u32],
    fault: DirFault,
) -> Result<Looked, AllocError>
    requires met { IsMet directory.now entries.old opened.old.items }
    requires way { IsWay directory.now way.now }
    ensures looked { IfOk result (IsLooked directory.now way.now fault) }
    ensures met { IfOk result (λ _. IsMet directory.now entries.new opened.new.items) }
{
    let entry = match entries.entry(end_of(way)) {
        Ok(entry) => entry,
        Err(found) => {
            let looked = at_fault(alloc, directory, way, fault, is_told(found, fault))?;
            return Ok(looked);
        }
    };
    match entry.kind {
        EntryKind::Stream => Ok(Looked::Nothing),
        EntryKind::Root => look_below(alloc, directory, entries, opened, way, fault),
        EntryKind::Storage => {
            if way.len() == TOO_DEEP {
                let is_there = fault == DirFault::TooNested;
                let looked = at_fault(alloc, directory, way, fault, is_there)?;
                return Ok(looked);
            }
            look_below(alloc, directory, entries, opened, way, fault)
        }
    }
}

/// The same of a storage, or of the root.
fn look_below(
    alloc: Global,
    directory: &[u8],
    entries: &mut Entries<'_>,
    opened: &mut Vec<u32>,
    way: &[u32],
    fault: DirFault,
) -> Result<Looked, AllocError>
    requires met { IsMet directory.now entries.old opened.old.items }
    requires way { IsWay directory.now way.now }
    requires storage { IsStorage directory.now (end_of way.now) }
    ensures looked { IfOk result (IsLooked directory.now way.now fault) }
    ensures met { IfOk result (λ _. IsMet directory.now entries.new opened.new.items) }
{
    let id = end_of(way);
    match entries.children(alloc, id) {
        Ok(children) => {
            opened.push(id)?;
            Ok(Looked::Children(children))
        }
        Err(DirFault::NoMemory) => Err(AllocError),
        Err(found) => {
            let is_there = is_told_of(found, fault, opened, id);
            let looked = at_fault(alloc, directory, way, fault, is_there)?;
            Ok(looked)
        }
    }
}

/// Two entries with one name in upper case. None where there are none.
fn find_twins(
    alloc: Global,
    entries: &Entries<'_>,
    ids: &[u32],
) -> Result<Option<(u32, u32)>, AllocError> {
    let mut keyed = BTreeMap::new(alloc);
    for id in ids {
        let Ok(entry) = entries.entry(*id) else {
            return Ok(None);
        };
        match keyed.insert(key(&entry.name), *id) {
            Ok(None) => {}
            Ok(Some(other)) => return Ok(Some((other, *id))),
            Err(_) => return Err(AllocError),
        }
    }
    Ok(None)
}

/// Whether two keys are the same.
fn are_same(a: Key, b: Key) -> bool
    ensures { result ≡ true → a ≡ b }
{
    a == b
}

/// Whether two entries have one name in upper case.
fn are_twins(entries: &Entries<'_>, m: u32, n: u32) -> bool
    ensures { result ≡ true → (m ≢ n) × (key_at entries.now.directory m ≡ key_at entries.now.directory n) }
{
    if m == 0 || n == 0 || m == n {
        return false;
    }
    let Ok(one) = entries.entry(m) else {
        return false;
    };
    let Ok(other) = entries.entry(n) else {
        return false;
    };
    are_same(key(&one.name), key(&other.name))
}

/// Whether two entries are among these, and have one name in upper case.
fn are_twins_of(entries: &Entries<'_>, ids: &[u32], m: u32, n: u32) -> bool
    ensures { result ≡ true → (Contains ids.now m) × (Contains ids.now n) × (m ≢ n)
        × (key_at entries.now.directory m ≡ key_at entries.now.directory n) }
{
    if !stands_in(ids, m) {
        return false;
    }
    if !stands_in(ids, n) {
        return false;
    }
    are_twins(entries, m, n)
}

/// Two children of the storage of a way that have one name in upper case.
fn twins_of(
    alloc: Global,
    directory: &[u8],
    entries: &Entries<'_>,
    way: &[u32],
    children: &[u32],
) -> Result<Option<EntryPlace>, AllocError>
    requires same { entries.now.directory ≡ directory.now }
    requires way { IsWay directory.now way.now }
    requires children { All (IsChild directory.now (end_of way.now)) children.now }
    ensures { IfOk result (λ p. IfSome p (IsEntryAtFault directory.now DirFault.DuplicateName)) }
{
    let twins = find_twins(alloc, entries, children)?;
    let Some((m, n)) = twins else {
        return Ok(None);
    };
    if are_twins_of(entries, children, m, n) {
        let way = Vec::from_slice(alloc, way)?;
        return Ok(Some(EntryPlace::Twins(way, m, n)));
    }
    Ok(None)
}

/// What a search of a directory has come to: the entries that were met, the storages that were opened, and ways to
/// entries.
#[derive(Drop)]
struct Search<'a> {
    entries: Entries<'a>,
    opened: Vec<u32>,
    ways: Vec<Vec<u32>>,
}

/// Looks at the entry of one of the ways for a fault, and adds the ways to its children.
fn step(
    alloc: Global,
    directory: &[u8],
    search: &mut Search<'_>,
    at: usize,
    fault: DirFault,
) -> Result<Option<EntryPlace>, AllocError>
    requires inside { at < length search.old.ways.items }
    requires met { IsMet directory.now search.old.entries search.old.opened.items }
    requires ways { All (λ w. IsWay directory.now w.items) search.old.ways.items }
    ensures found { IfOk result (λ p. IfSome p (IsEntryAtFault directory.now fault)) }
    ensures met { IfOk result (λ _. IsMet directory.now search.new.entries search.new.opened.items) }
    ensures ways { IfOk result (λ _. All (λ w. IsWay directory.now w.items) search.new.ways.items) }
{
    let way = Vec::from_slice(alloc, &search.ways[at])?;
    let looked = look(
        alloc,
        directory,
        &mut search.entries,
        &mut search.opened,
        &way,
        fault,
    )?;
    match looked {
        Looked::AtFault(place) => Ok(Some(place)),
        Looked::Nothing => Ok(None),
        Looked::Children(children) => {
            push_ways(alloc, directory, &mut search.ways, &way, &children)?;
            if fault == DirFault::DuplicateName {
                let found = twins_of(alloc, directory, &search.entries, &way, &children)?;
                return Ok(found);
            }
            Ok(None)
        }
    }
}

/// The search of a directory that has come to nothing but the root.
fn search_of<'a>(alloc: Global, entries: Entries<'a>) -> Result<Search<'a>, AllocError>
    ensures entries { IfOk result (λ s. s.entries ≡ entries.entry) }
    ensures opened { IfOk result (λ s. s.opened.items ≡ []) }
    ensures ways { IfOk result (λ s. All (λ w. w.items ≡ []) s.ways.items) }
{
    let ways = root_way(alloc)?;
    Ok(Search {
        entries,
        opened: Vec::new(alloc),
        ways,
    })
}

/// The place at which a directory of these bytes has a fault of the links between entries: two of one name, too many
/// storages in one another, or a circle. None where it isn't found: storages behind another fault, or too deep, aren't
/// looked at.
fn find_in_links(
    alloc: Global,
    directory: &[u8],
    fault: DirFault,
) -> Result<Option<EntryPlace>, AllocError>
    requires { (m : ℕ) × (length directory.now ≡ 128 * m) }
    ensures { IfOk result (λ p. IfSome p (IsEntryAtFault directory.now fault)) }
{
    let entries = match Entries::load(alloc, directory) {
        Ok(entries) => entries,
        Err(DirFault::NoMemory) => return Err(AllocError),
        Err(found) => return Ok(nowhere_if(is_told(found, fault))),
    };
    let mut search = search_of(alloc, entries)?;
    for at in 0..directory.len() {
        if at >= search.ways.len() {
            return Ok(None);
        }
        let found = step(alloc, directory, &mut search, at, fault)?;
        if let Some(place) = found {
            return Ok(Some(place));
        }
    }
    Ok(None)
}

/// Whether a fault is one of the links between entries.
fn is_of_links(fault: DirFault) -> bool
    ensures told { result ≡ true → IsOfLinks fault }
    ensures other { result ≡ false → IsOfLinks fault → ⊥ }
{
    match fault {
        DirFault::TooNested => true,
        DirFault::DuplicateName => true,
        DirFault::TreeCycle => true,
        _ => false,
    }
}

/// The place at which a directory of these bytes has a fault. None where no entry has it, if it is none of the links
/// between entries; of such a one, where it isn't found.
pub(crate) fn find_in_entries(
    alloc: Global,
    directory: &[u8],
    fault: DirFault,
) -> Result<Option<EntryPlace>, AllocError>
    requires { (m : ℕ) × (length directory.now ≡ 128 * m) }
    ensures there { IfOk result (λ p. IfSome p (IsEntryAtFault directory.now fault)) }
    ensures nowhere { (IsOfLinks fault → ⊥)
        → IfOk result (λ p. IfNone p ((where_it_is : EntryPlace) → IsEntryAtFault directory.now fault where_it_is
        → ⊥)) }
{
    if directory.len() < ENTRY {
        return Ok(nowhere_if(is_of_entry(fault)));
    }
    if is_of_links(fault) {
        return find_in_links(alloc, directory, fault);
    }
    match find_own(alloc, directory, fault) {
        Ok(Some(way)) => Ok(Some(EntryPlace::Entry(way))),
        Ok(None) => Ok(None),
        Err(error) => Err(error),
    }
}

/// The place of a directory without entries, where that is the fault.
fn nowhere_if(is_there: bool) -> Option<EntryPlace>
    ensures told { IfSome result (λ p. (is_there ≡ true) × (p ≡ EntryPlace.Nowhere)) }
    ensures other { IfNone result (is_there ≡ false) }
{
    if is_there {
        return Some(EntryPlace::Nowhere);
    }
    None
}
