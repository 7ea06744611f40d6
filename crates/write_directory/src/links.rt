//! Trees of siblings (MS-CFB 2.6.4).

ghost use Rattle.cfb_bytes.specs.Marks.{AreDistinct};
ghost use Rattle.write_directory.specs.Building.{AllAdjacentApart, HasEqualNeighbours, IsFirstRefusal, KeepsOthers};
ghost use Rattle.write_directory.specs.Building.{keyed_names, places};
ghost use Rattle.cfb_entries.specs.SearchTree.{AreKept, IsBuilt, IsSearchTree, IsTree, MayRefuseBuild};
ghost use Rattle.cfb_names.specs.declared.fault.DirFault.TheVariants.{NoMemory};
ghost use Rattle.std.specs.List.{All};
ghost use Rattle.std.specs.Prelude.{◌≡◌, ◌≢◌, ◌<◌, ◌≤◌, [], IfErr, IfOk, false, length, slice_index_or, true, ℕ};
ghost use Rattle.std.specs.declared.cmp.Ordering.TheVariants.{Equal};
ghost use Rattle.cfb_names.specs.Names.{name_cmp};

use cfb_entries::entries::NO_STREAM;
pub use cfb_entries::links::Links;
use cfb_names::fault::DirFault;
use cfb_names::key::Key;
use cfb_names::name::{Name, key};
use std::alloc::{AllocError, Global};
use std::cmp::Ordering;

/// The links of so many siblings in name order, by their places: of the siblings from `a` to `b` the one at
/// `a + (b - a + 1) / 2`, rounded down, is on top, and so on in both halves.
pub fn balanced(alloc: Global, count: u32) -> Result<Links, AllocError>
    ensures tree { IfOk result (λ l. IsSearchTree l.left.items l.right.items 0 count l.top) }
    ensures left_count { IfOk result (λ l. length l.left.items ≡ count) }
    ensures right_count { IfOk result (λ l. length l.right.items ≡ count) }
{
    let mut left = vec![in alloc; NO_STREAM; count as usize]?;
    let mut right = vec![in alloc; NO_STREAM; count as usize]?;
    let top = link(&mut left, &mut right, 0, count);
    Ok(Links { top, left, right })
}

/// The links of siblings with these names in any order, by the places of the names. They are balanced as those of
/// `balanced` are.
///
/// Refused: `DuplicateName` where two names are equal in upper case; else `NoMemory`. Where memory is short, each two
/// names are compared.
pub fn build(alloc: Global, names: &[Name]) -> Result<Links, DirFault>
    requires { length names.now ≤ 0xFFFFFFFF }
    ensures built { IfOk result (IsBuilt names.now) }
    ensures refused { IfErr result (MayRefuseBuild names.now) }
{
    match sorted(alloc, names) {
        Ok(links) => Ok(links),
        Err(fault) => Err(told(names, fault)),
    }
}

/// What names are refused for: for two that are equal in upper case, also where memory was short before it was seen.
fn told(names: &[Name], fault: DirFault) -> DirFault
    requires { IsFirstRefusal names.now fault }
    ensures { MayRefuseBuild names.now result }
{
    if fault == DirFault::NoMemory {
        return twins_or_memory(names);
    }
    fault
}

/// The same, by comparing each two names, which takes no memory.
fn twins_or_memory(names: &[Name]) -> DirFault
    ensures { MayRefuseBuild names.now result }
{
    for k in 0..names.len() {
        if stands_before(names, k) {
            return DirFault::DuplicateName;
        }
    }
    DirFault::NoMemory
}

/// Whether a name is equal in upper case to one before it.
fn stands_before(names: &[Name], k: usize) -> bool
    requires { k < length names.now }
    ensures found { result ≡ true → (j : ℕ) × (j < k)
        × (name_cmp (slice_index_or names.now j []) (slice_index_or names.now k []) ≡ Equal) }
    ensures none { result ≡ false → (j : ℕ) → j < k → name_cmp (slice_index_or names.now j [])
        (slice_index_or names.now k []) ≢ Equal }
{
    for j in 0..k {
        if are_twins(&names[j], &names[k]) {
            return true;
        }
    }
    false
}

/// Whether two names are equal in upper case.
fn are_twins(a: &Name, b: &Name) -> bool
    ensures equal { result ≡ true → name_cmp a.now b.now ≡ Equal }
    ensures apart { result ≡ false → name_cmp a.now b.now ≢ Equal }
{
    match a.cmp(b) {
        Ordering::Equal => true,
        _ => false,
    }
}

/// The links of siblings with these names. Want of memory may be told where two are equal in upper case.
fn sorted(alloc: Global, names: &[Name]) -> Result<Links, DirFault>
    requires { length names.now ≤ 0xFFFFFFFF }
    ensures built { IfOk result (IsBuilt names.now) }
    ensures refused { IfErr result (IsFirstRefusal names.now) }
{
    let mut siblings = keyed(alloc, names)?;
    siblings.sort()?;
    if !are_apart(&siblings) {
        return Err(DirFault::DuplicateName);
    }
    let order = places(alloc, &siblings)?;
    let mut left = vec![in alloc; NO_STREAM; names.len()]?;
    let mut right = vec![in alloc; NO_STREAM; names.len()]?;
    let top = join(&order, &mut left, &mut right);
    Ok(Links { top, left, right })
}

/// The names' keys, each with its place.
fn keyed(alloc: Global, names: &[Name]) -> Result<Vec<(Key, u32)>, DirFault>
    requires { length names.now ≤ 0xFFFFFFFF }
    ensures keyed { IfOk result (λ v. v.items ≡ keyed_names names.now) }
    ensures refused { IfErr result (λ e. e ≡ NoMemory) }
{
    let mut siblings = Vec::new(alloc);
    for (k, name) in names.iter().enumerate() {
        siblings.push((key(name), k as u32))?;
    }
    Ok(siblings)
}

/// Whether no two neighbours have one key.
fn are_apart(siblings: &[(Key, u32)]) -> bool
    ensures apart { result ≡ true → AllAdjacentApart siblings.now }
    ensures equal { result ≡ false → HasEqualNeighbours siblings.now }
{
    for k in 1..siblings.len() {
        if siblings[k - 1].0 == siblings[k].0 {
            return false;
        }
    }
    true
}

/// The places of siblings.
fn places(alloc: Global, siblings: &[(Key, u32)]) -> Result<Vec<u32>, AllocError>
    ensures { IfOk result (λ v. v.items ≡ places siblings.now) }
{
    siblings.iter().map(|sibling| sibling.1).collect(alloc)
}

/// Links siblings in this order, and gives the one on top.
fn join(order: &[u32], left: &mut [u32], right: &mut [u32]) -> u32
    requires in_left { All (λ k. k < length left.old) order.now }
    requires in_right { All (λ k. k < length right.old) order.now }
    requires once { AreDistinct order.now }
    ensures tree { IsTree left.new right.new result order.now }
    ensures kept_left { KeepsOthers order.now left.old left.new }
    ensures kept_right { KeepsOthers order.now right.old right.new }
{
    if order.is_empty() {
        return NO_STREAM;
    }
    let middle = order.len() / 2;
    let top = order[middle];
    let before = join(&order[..middle], left, right);
    let after = join(&order[middle + 1..], left, right);
    left[top as usize] = before;
    right[top as usize] = after;
    top
}

/// Links the places from `lo` up to `hi`, and gives the one on top.
fn link(left: &mut [u32], right: &mut [u32], lo: u32, hi: u32) -> u32
    requires ordered { lo ≤ hi }
    requires in_left { hi ≤ length left.old }
    requires in_right { hi ≤ length right.old }
    ensures tree { IsSearchTree left.new right.new lo hi result }
    ensures kept_left { AreKept left.old left.new lo hi }
    ensures kept_right { AreKept right.old right.new lo hi }
{
    if lo == hi {
        return NO_STREAM;
    }
    let top = lo + (hi - lo) / 2;
    let before = link(left, right, lo, top);
    let after = link(left, right, top + 1, hi);
    left[top as usize] = before;
    right[top as usize] = after;
    top
}
