//! Walking a chain to where it stops, and what is wrong there.

ghost use Rattle.cfb_bytes.specs.Marks.{set_all};
ghost use Rattle.cfb_chains.specs.Chain.{END_OF_CHAIN as END, IsChain, Store};
ghost use Rattle.cfb_header.specs.declared.fault.ChainFault.TheVariants.{CrossLinked};
ghost use Rattle.tell_faults.specs.Places.{IsExamined, IsLed, IsLinkAtFault, IsNotWhole, IsSpared, IsStopped, IsWalk};
ghost use Rattle.tell_faults.specs.Tables.{IsTabled};
ghost use Rattle.std.specs.List.{Contains};
ghost use Rattle.std.specs.Prelude.{[], ◌*◌, ◌<◌, ◌≡◌, ◌≢◌, ◌≤◌, ◌⊎◌, IfNone, IfOk, IfSome, false, length, replicate};
ghost use Rattle.std.specs.Prelude.{slice_index_or, slice_set, true, ℕ};

use crate::place::Link;
use cfb_header::fault::ChainFault;
use cfb_header::header::END_OF_CHAIN;
use std::alloc::{AllocError, Global};

/// The bytes of a sector.
pub const SECTOR: u32 = 512;

/// A chain that is looked for: its first sector, how wide each is, and for how many bytes it needs room.
#[derive(Clone, Copy)]
pub struct Chain {
    /// The first sector.
    pub first: u32,
    /// The bytes of each sector.
    pub width: u32,
    /// The bytes for which it needs room.
    pub size: u64,
}

/// What was walked of a chain: its sectors, and the link at which it stops.
#[derive(Drop)]
struct Walked {
    /// The sectors, in order.
    sectors: Vec<u32>,
    /// The link behind them.
    link: Link,
}

/// Marks a sector, where there is one with this number.
fn mark(marks: &mut Vec<bool>, n: u32)
    ensures { marks.new.items ≡ slice_set marks.old.items n true }
{
    if (n as usize) < marks.len() {
        marks[n as usize] = true;
    }
}

/// A mark for each of so many sectors: those that are taken have one.
pub fn marks(alloc: Global, count: usize, taken: &[u32]) -> Result<Vec<bool>, AllocError>
    ensures { IfOk result (λ v. v.items ≡ set_all (replicate count false) taken.now) }
{
    let mut marks = vec![in alloc; false; count]?;
    for n in taken {
        mark(&mut marks, *n);
    }
    Ok(marks)
}

/// Whether a number is that of a sector without a mark.
pub fn is_new(marks: &[bool], n: u32) -> bool
    ensures new { result ≡ true → (n < length marks.now) × (slice_index_or marks.now n true ≡ false) }
    ensures old { result ≡ false → slice_index_or marks.now n true ≡ true }
{
    if n as usize >= marks.len() {
        return false;
    }
    !marks[n as usize]
}

/// Walks the chain from a sector on, up to what is no sector, a sector that was met before or one that is taken.
fn walk(alloc: Global, table: &[u32], taken: &[u32], start: u32) -> Result<Walked, AllocError>
    ensures walked { IfOk result (λ w. IsWalk table.now start w.sectors.items w.link) }
    ensures few { IfOk result (λ w. length w.sectors.items ≤ length table.now) }
    ensures stopped { IfOk result (λ w. IsStopped table.now taken.now w.sectors.items w.link.to) }
{
    let mut marks = marks(alloc, table.len(), taken)?;
    let mut sectors = Vec::new(alloc);
    let mut from = None;
    let mut at = start;
    while is_new(&marks, at) {
        marks[at as usize] = true;
        sectors.push(at)?;
        from = Some(at);
        at = table[at as usize];
    }
    Ok(Walked {
        sectors,
        link: Link { from, to: at },
    })
}

/// Whether a number is neither that of a sector nor the end of a chain.
fn is_outside(count: usize, to: u32) -> bool
    ensures outside { result ≡ true → (to ≢ END) × (count ≤ to) }
    ensures inside { result ≡ false → (to ≡ END) ⊎ (to < count) }
{
    if to == END_OF_CHAIN {
        return false;
    }
    to as usize >= count
}

/// Whether a number stands in a list.
pub fn stands_in(sectors: &[u32], n: u32) -> bool
    ensures there { result ≡ true → Contains sectors.now n }
    ensures absent { result ≡ false → Contains sectors.now n → ⊥ }
{
    sectors.contains(&n)
}

/// Whether a number is that of a taken sector.
fn is_taken(count: usize, taken: &[u32], n: u32) -> bool
    ensures taken { result ≡ true → (n < count) × Contains taken.now n }
    ensures free { result ≡ false → (count ≤ n) ⊎ (Contains taken.now n → ⊥) }
{
    if n as usize >= count {
        return false;
    }
    stands_in(taken, n)
}

/// Whether so many sectors of a width that end at a number have no room for so many bytes.
pub fn is_short(len: usize, to: u32, width: u32, size: u64) -> bool
    requires { len < 0x100000000 }
    ensures short { result ≡ true → (to ≡ END) × (width * len < size) }
    ensures long { result ≡ false → (to ≢ END) ⊎ (size ≤ width * len) }
{
    if to != END_OF_CHAIN {
        return false;
    }
    width as u64 * (len as u64) < size
}

/// Whether so many sectors of a width end at a number, and have room for so many bytes.
pub fn is_whole(len: usize, to: u32, width: u32, size: u64) -> bool
    requires { len < 0x100000000 }
    ensures whole { result ≡ true → (to ≡ END) × (size ≤ width * len) }
    ensures cut { result ≡ false → (to ≢ END) ⊎ (width * len < size) }
{
    if to != END_OF_CHAIN {
        return false;
    }
    size <= width as u64 * (len as u64)
}

/// Whether a walk, of a chain of sectors of a width that needs room for so many bytes, stops at a link with this fault.
fn is_at_fault(
    table: &[u32],
    taken: &[u32],
    walked: &Walked,
    chain: Chain,
    fault: ChainFault,
) -> bool
    requires { length walked.now.sectors.items < 0x100000000 }
    ensures told { result ≡ true → (s : Store) → s.count ≡ length table.now → s.width ≡ chain.width → (start : ℕ)
        → IsLed s start walked.now.sectors.items walked.now.link
        → IsLinkAtFault s (Contains taken.now) start chain.size fault walked.now.link }
    ensures spared { result ≡ false
        → IsSpared (length table.now) (Contains taken.now) walked.now.sectors.items walked.now.link.to
        (chain.width * length walked.now.sectors.items) chain.size fault }
{
    match fault {
        ChainFault::OutOfFile => is_outside(table.len(), walked.link.to),
        ChainFault::Cycle => stands_in(&walked.sectors, walked.link.to),
        ChainFault::CrossLinked => is_taken(table.len(), taken, walked.link.to),
        ChainFault::ShortChain => is_short(
            walked.sectors.len(),
            walked.link.to,
            chain.width,
            chain.size,
        ),
        _ => false,
    }
}

/// What a chain is found to be.
#[derive(Drop)]
pub enum Examined {
    /// It has the fault that is looked for at this link.
    AtFault(Link),
    /// It is whole, and these are its sectors.
    Whole(Vec<u32>),
    /// Something else is wrong with it.
    Other,
}

/// The sectors at which a walk stops that looks for a fault: those that are taken, where the fault is to lead to one.
fn stops_for(taken: &[u32], fault: ChainFault) -> &[u32]
    ensures crossed { fault ≡ CrossLinked → result.now ≡ taken.now }
    ensures other { fault ≢ CrossLinked → result.now ≡ [] }
{
    if fault == ChainFault::CrossLinked {
        return taken;
    }
    &taken[..0]
}

/// Looks for a fault in a chain, by the entries of its table, where some sectors are taken by other parts. The fault is
/// found wherever the chain has it, whatever else is wrong with it.
pub fn examine(
    alloc: Global,
    table: &[u32],
    taken: &[u32],
    chain: Chain,
    fault: ChainFault,
) -> Result<Examined, AllocError>
    requires { length table.now ≤ 0xFFFFFFF9 }
    ensures { IfOk result (IsExamined table.now taken.now chain fault) }
{
    let walked = walk(alloc, table, stops_for(taken, fault), chain.first)?;
    if is_at_fault(table, taken, &walked, chain, fault) {
        return Ok(Examined::AtFault(walked.link));
    }
    if is_whole(
        walked.sectors.len(),
        walked.link.to,
        chain.width,
        chain.size,
    ) {
        return Ok(Examined::Whole(walked.sectors));
    }
    Ok(Examined::Other)
}

/// The sectors of a chain, by the entries of its table. None where it isn't whole.
pub fn chain_at(alloc: Global, table: &[u32], chain: Chain) -> Result<Option<Vec<u32>>, AllocError>
    requires { length table.now ≤ 0xFFFFFFF9 }
    ensures whole { IfOk result (λ v. IfSome v (λ ns. (s : Store) → IsTabled table.now s → s.width ≡ chain.width
        → IsChain s chain.first chain.size ns.items)) }
    ensures other { IfOk result (λ v. IfNone v (IsNotWhole table.now chain)) }
{
    let walked = walk(alloc, table, &[], chain.first)?;
    if is_whole(
        walked.sectors.len(),
        walked.link.to,
        chain.width,
        chain.size,
    ) {
        return Ok(Some(walked.sectors));
    }
    Ok(None)
}
