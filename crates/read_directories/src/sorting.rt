//! Entries that are put in the order of their names, with no memory taken for that.

ghost use Rattle.cfb_chains.specs.Chain.{AreDistinct};
ghost use Rattle.cfb_entries.specs.Entries.{MayRefuseEntry};
ghost use Rattle.cfb_names.specs.Names.{key_cmp};
ghost use Rattle.cfb_faults.specs.Faults.{key_at};
ghost use Rattle.std.specs.List.{All, Contains};
ghost use Rattle.std.specs.List.Sorted.{IsStrictlySortedBy};
ghost use Rattle.std.specs.Prelude.{[], ◌++◌, ◌<◌, ◌↔◌, ◌∷◌, ◌≡◌, ◌≢◌, ◌≤◌, IfErr, IfOk, OnOk, false, length, map};
ghost use Rattle.std.specs.Prelude.{true, vec_capacity, vec_len, ℕ};
ghost use Rattle.read_directories.specs.Sorting.{AllAdjacentApart, HasEqualNeighbours, MayRefuseNames, MayRefuseOneOf};
ghost use Rattle.read_directories.specs.Sorting.{keyed, places};

use crate::entries::Entries;
use cfb_names::fault::DirFault;
use cfb_names::key::Key;
use cfb_names::name::key;

/// Adds an item to a list that has room for it.
fn push_within<T: Copy>(list: &mut Vec<T>, item: T)
    requires { vec_len list.old < vec_capacity list.old }
    ensures items { list.new.items ≡ list.old.items ++ item ∷ [] }
    ensures room { vec_capacity list.old ≤ vec_capacity list.new }
{
    match list.push(item) {
        Ok(()) => {}
        Err(_) => unreachable!(),
    }
}

/// The key of an entry's name. A name that is lent isn't copied for it.
///
/// Refused: as `Entries::name`.
fn key_of(entries: &Entries<'_>, id: u32) -> Result<Key, DirFault>
    requires below_root { id ≢ 0 }
    ensures found { IfOk result (λ k. k ≡ key_at entries.now.directory id) }
    ensures refused { IfErr result (MayRefuseEntry entries.now.directory id) }
{
    if let Some(name) = entries.known_name(id) {
        return Ok(key(name));
    }
    match entries.name(id) {
        Ok(name) => Ok(key(&name)),
        Err(fault) => Err(fault),
    }
}

/// Whether the keys of the entries' names rise from each to the next.
///
/// Refused: as `Entries::name`.
fn do_rise(entries: &Entries<'_>, ids: &[u32]) -> Result<bool, DirFault>
    requires below_root { All (λ n. n ≢ 0) ids.now }
    ensures ordered { IfOk result (λ rise. rise ≡ true
        → IsStrictlySortedBy key_cmp (map (key_at entries.now.directory) ids.now)) }
    ensures refused { IfErr result (MayRefuseOneOf entries.now.directory ids.now) }
{
    if ids.is_empty() {
        return Ok(true);
    }
    let mut last = key_of(entries, ids[0])?;
    for k in 1..ids.len() {
        let next = key_of(entries, ids[k])?;
        if !last.cmp(&next).is_lt() {
            return Ok(false);
        }
        last = next;
    }
    Ok(true)
}

/// Lists the entries, each behind the key of its name, where there is room for all.
///
/// Refused: as `Entries::name`.
fn list_keys(entries: &Entries<'_>, ids: &[u32], list: &mut Vec<(Key, u32)>) -> Result<(), DirFault>
    requires below_root { All (λ n. n ≢ 0) ids.now }
    requires none { list.old.items ≡ [] }
    requires room { length ids.now ≤ vec_capacity list.old }
    ensures listed { OnOk result (list.new.items ≡ keyed entries.now.directory ids.now) }
    ensures refused { IfErr result (MayRefuseOneOf entries.now.directory ids.now) }
{
    for id in ids {
        let name = match entries.name(*id) {
            Ok(name) => name,
            Err(fault) => return Err(fault),
        };
        push_within(list, (key(&name), *id));
    }
    Ok(())
}

/// Whether no two neighbours have one key.
fn are_apart(list: &[(Key, u32)]) -> bool
    ensures apart { result ≡ true → AllAdjacentApart list.now }
    ensures equal { result ≡ false → HasEqualNeighbours list.now }
{
    for k in 1..list.len() {
        if list[k - 1].0 == list[k].0 {
            return false;
        }
    }
    true
}

/// Puts the entries of a list in the place of as many others.
fn put_ids(list: &[(Key, u32)], ids: &mut [u32])
    requires { length ids.old ≡ length list.now }
    ensures { ids.new ≡ places list.now }
{
    for k in 0..list.len() {
        ids[k] = list[k].1;
    }
}

/// The entries in the order of their names, by sorting whole keys.
///
/// Refused: as `Entries::name`, and `DuplicateName` where two names are equal in upper case.
fn by_keys(
    entries: &Entries<'_>,
    mut ids: Vec<u32>,
    mut list: Vec<(Key, u32)>,
) -> Result<Vec<u32>, DirFault>
    requires below_root { All (λ n. n ≢ 0) ids.items }
    requires distinct { AreDistinct ids.items }
    requires none { list.items ≡ [] }
    requires room { vec_len ids ≤ vec_capacity list }
    ensures ordered { IfOk result (λ v. IsStrictlySortedBy key_cmp (map (key_at entries.now.directory) v.items)) }
    ensures same { IfOk result (λ v. (n : ℕ) → Contains ids.items n ↔ Contains v.items n) }
    ensures refused { IfErr result (MayRefuseNames entries.now.directory ids.items) }
{
    list_keys(entries, &ids, &mut list)?;
    list.sort_unstable();
    if !are_apart(&list) {
        return Err(DirFault::DuplicateName);
    }
    put_ids(&list, &mut ids);
    Ok(ids)
}

/// The entries in the order of their names. It takes no memory: it is given a list with room for all.
///
/// Where they come in that order, as a search tree of them is read in order, each name is looked at once. Others are
/// sorted by whole keys, for which names are read once more: n entries in n log n steps. Until then the list of keys
/// isn't written to, and what is reserved and not written to takes no memory.
///
/// Refused: as `Entries::name`, and `DuplicateName` where two names are equal in upper case.
pub fn by_name(
    entries: &Entries<'_>,
    ids: Vec<u32>,
    list: Vec<(Key, u32)>,
) -> Result<Vec<u32>, DirFault>
    requires below_root { All (λ n. n ≢ 0) ids.items }
    requires distinct { AreDistinct ids.items }
    requires none { list.items ≡ [] }
    requires room { vec_len ids ≤ vec_capacity list }
    ensures ordered { IfOk result (λ v. IsStrictlySortedBy key_cmp (map (key_at entries.now.directory) v.items)) }
    ensures same { IfOk result (λ v. (n : ℕ) → Contains ids.items n ↔ Contains v.items n) }
    ensures refused { IfErr result (MayRefuseNames entries.now.directory ids.items) }
{
    if do_rise(entries, &ids)? {
        return Ok(ids);
    }
    by_keys(entries, ids, list)
}
