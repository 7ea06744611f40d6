//! What is wrong with the FAT of a file, by the lists of its sectors.

ghost use Rattle.cfb_chains.specs.Chain.{AreDistinct};
ghost use Rattle.cfb_header.specs.Header.{fat_count};
ghost use Rattle.tell_faults.specs.Tables.{AreListsOf};
ghost use Rattle.cfb_faults.specs.Faults.{IsFatAtFault};
ghost use Rattle.std.specs.List.{All, Contains};
ghost use Rattle.std.specs.Prelude.{◌++◌, ◌≡◌, ◌<◌, ◌≤◌, List, false, length, slice_index, take, true, ℕ};

use crate::tables::Lists;
use cfb_header::fault::ChainFault;

/// Whether one of some sectors isn't among the first so many.
fn is_any_absent(sectors: &[u32], count: usize) -> bool
    ensures absent { result ≡ true → (n : ℕ) × Contains sectors.now n × (count ≤ n) }
    ensures present { result ≡ false → All (λ n. n < count) sectors.now }
{
    for n in sectors {
        if *n as usize >= count {
            return true;
        }
    }
    false
}

/// Whether one of some sectors is listed twice.
fn is_any_twice(sectors: &[u32]) -> bool
    ensures twice { result ≡ true → AreDistinct sectors.now → ⊥ }
    ensures once { result ≡ false → AreDistinct sectors.now }
{
    for k in 0..sectors.len() {
        if sectors[..k].contains(&sectors[k]) {
            return true;
        }
    }
    false
}

/// How many sectors there are before the first one that isn't among the first so many.
fn present_front(sectors: &[u32], count: usize) -> usize
    ensures within { result ≤ length sectors.now }
    ensures present { All (λ n. n < count) (take result sectors.now) }
    ensures longest { result < length sectors.now → count ≤ slice_index sectors.now result }
{
    for k in 0..sectors.len() {
        if sectors[k] as usize >= count {
            return k;
        }
    }
    sectors.len()
}

/// Whether sectors come back to one of them before one that isn't among the first so many.
fn comes_back(sectors: &[u32], count: usize) -> bool
    ensures back { result ≡ true → (k : ℕ) × All (λ n. n < count) (take k sectors.now)
        × (AreDistinct (take k sectors.now) → ⊥) }
    ensures never { result ≡ false → (k : ℕ) → All (λ n. n < count) (take k sectors.now)
        → AreDistinct (take k sectors.now) }
{
    let front = present_front(sectors, count);
    is_any_twice(&sectors[..front])
}

/// Whether one of all sectors is listed twice where the DIFAT's are among the first so many, each once.
fn are_crossed(difat: &[u32], all: &[u32], count: usize) -> bool
    ensures crossed { result ≡ true → All (λ n. n < count) difat.now × AreDistinct difat.now
        × (AreDistinct all.now → ⊥) }
    ensures apart { result ≡ false → All (λ n. n < count) difat.now → AreDistinct difat.now → AreDistinct all.now }
{
    if is_any_absent(difat, count) {
        return false;
    }
    if is_any_twice(difat) {
        return false;
    }
    is_any_twice(all)
}

/// Whether the FAT of a file has a fault, by what the file lists of it: of all its sectors, where so many are wanted.
pub(crate) fn is_fat_at_fault(lists: &Lists, all: &[u32], wanted: u32, fault: ChainFault) -> bool
    requires { all.now ≡ lists.now.fat.items ++ lists.now.difat.items }
    ensures told { result ≡ true → (file : List ℕ) → AreListsOf file lists.now.fat.items lists.now.difat.items
        lists.now.entries.items → wanted ≡ fat_count file
        → IsFatAtFault file fault }
    ensures free { result ≡ false → (file : List ℕ) → AreListsOf file lists.now.fat.items lists.now.difat.items
        lists.now.entries.items → wanted ≡ fat_count file
        → IsFatAtFault file fault → ⊥ }
{
    let count = lists.entries.len();
    match fault {
        ChainFault::OutOfFile => is_any_absent(all, count),
        ChainFault::Cycle => comes_back(&lists.difat, count),
        ChainFault::CrossLinked => are_crossed(&lists.difat, all, count),
        ChainFault::ShortChain => lists.fat.len() < wanted as usize,
        _ => false,
    }
}
