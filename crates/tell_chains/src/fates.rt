//! What becomes of links in a table, from the first sectors of streams on, each sector looked at once.

ghost use Rattle.cfb_chains.specs.Chain.{END_OF_CHAIN as END};
ghost use Rattle.cfb_header.specs.declared.fault.ChainFault.TheVariants.{CrossLinked, Cycle};
ghost use Rattle.tell_chains.specs.Fates.{AreFates, AreFatesOf, IsEndSpared, IsFate, IsFateOf, IsFree, IsSettling};
ghost use Rattle.tell_chains.specs.Fates.{Runs, last_or, marks_of};
ghost use Rattle.tell_faults.specs.Places.{IsUnfaulted};
ghost use Rattle.std.specs.Prelude.{[], ◌≡◌, ◌≢◌, ◌⊎◌, ◌<◌, ◌≤◌, ◌+◌, Bool, IfOk, List, OnOk, false, length};
ghost use Rattle.std.specs.Prelude.{slice_index, slice_index_or, slice_set, ℕ};

use crate::parts::Parts;
use crate::streams::{Stream, lies_in_minis};
use cfb_header::fault::ChainFault;
use cfb_header::header::END_OF_CHAIN;
use std::alloc::{AllocError, Global};
use tell_faults::walking::{Chain, is_new, is_short, marks, stands_in};

/// The greatest number of sectors that is counted.
const MOST: u32 = 0xFFFFFFFF;

/// Where links from a sector on lead out: to what is no sector's number, or to a sector at which walks stop.
#[derive(Clone, Copy)]
pub(crate) struct Ending {
    /// The number to which they lead.
    pub(crate) to: u32,
    /// How many sectors are met before.
    pub(crate) steps: u32,
    /// The last of these, if there is one.
    pub(crate) last: Option<u32>,
}

/// What becomes of the links from a sector on.
#[derive(Clone, Copy)]
pub(crate) enum Fate {
    /// It isn't known.
    Unknown,
    /// It isn't known yet, and the sector was met.
    Met,
    /// They never lead out.
    Circle,
    /// They lead out.
    Ends(Ending),
}

/// What becomes of the links of streams, in sectors and in mini sectors, and the marks of those at which walks stop.
#[derive(Drop)]
pub(crate) struct Fates {
    /// The marks of the sectors, and of the mini sectors.
    stops: Vec<bool>,
    mini_stops: Vec<bool>,
    /// What is noted of the sectors, and of the mini sectors.
    sectors: Vec<Fate>,
    minis: Vec<Fate>,
}

/// Nothing is known of so many sectors.
fn unknown(alloc: Global, count: usize) -> Result<Vec<Fate>, AllocError>
    ensures { (table : List ℕ) (stops : List Bool) → IfOk result (λ v. AreFates table stops v.items) }
{
    let mut fates = Vec::with_capacity(alloc, count)?;
    for _ in 0..count {
        fates.push(Fate::Unknown)?;
    }
    Ok(fates)
}

/// What is noted of a number.
fn noted(fates: &[Fate], n: u32) -> Fate
    ensures { result ≡ slice_index_or fates.now n Fate.Unknown }
{
    if n as usize >= fates.len() {
        return Fate::Unknown;
    }
    fates[n as usize]
}

/// Notes what becomes of the links from a sector on, where there is one with this number.
fn note(fates: &mut Vec<Fate>, n: u32, fate: Fate)
    ensures { fates.new.items ≡ slice_set fates.old.items n fate }
{
    if (n as usize) < fates.len() {
        fates[n as usize] = fate;
    }
}

/// Whether a sector was met.
fn is_met(fates: &[Fate], n: u32) -> bool {
    match noted(fates, n) {
        Fate::Unknown => false,
        _ => true,
    }
}

/// One sector more, as far as is counted.
fn one_more(steps: u32) -> u32
    ensures { ((steps < 0xFFFFFFFF) × (result ≡ steps + 1)) ⊎ ((0xFFFFFFFF ≤ steps) × (result ≡ 0xFFFFFFFF)) }
{
    if steps >= MOST {
        return MOST;
    }
    steps + 1
}

/// The last sector of some, which another one stands before.
fn last_with(last: Option<u32>, before: u32) -> Option<u32>
    ensures { result ≡ last_or last before }
{
    match last {
        Some(n) => Some(n),
        None => Some(before),
    }
}

/// What becomes of the links from a sector on, by what becomes of them from the next number on.
fn back(fate: Fate, n: u32) -> Fate
    ensures { (table : List ℕ) (stops : List Bool) → IsFree table stops n
        → IsFate table stops (slice_index table n) fate → IsFate table stops n result }
{
    match fate {
        Fate::Ends(ending) => Fate::Ends(Ending {
            to: ending.to,
            steps: one_more(ending.steps),
            last: last_with(ending.last, n),
        }),
        Fate::Circle => Fate::Circle,
        Fate::Unknown => Fate::Unknown,
        Fate::Met => Fate::Unknown,
    }
}

/// Goes from a number on over sectors of which nothing is noted, adds them to a way, and gives the number before which
/// it stops.
fn go(
    table: &[u32],
    stops: &[bool],
    fates: &mut Vec<Fate>,
    way: &mut Vec<u32>,
    first: u32,
) -> Result<u32, AllocError>
    requires sized { length stops.now ≡ length table.now }
    requires empty { way.old.items ≡ [] }
    requires fates { AreFates table.now stops.now fates.old.items }
    ensures runs { IfOk result (λ to. Runs table.now stops.now first way.new.items to) }
    ensures fates { IfOk result (λ _. AreFates table.now stops.now fates.new.items) }
{
    let mut at = first;
    for _ in 0..table.len() {
        if !is_new(stops, at) {
            return Ok(at);
        }
        if is_met(fates, at) {
            return Ok(at);
        }
        note(fates, at, Fate::Met);
        way.push(at)?;
        at = table[at as usize];
    }
    Ok(at)
}

/// What becomes of links from the number on to which a way leads.
fn fate_from(stops: &[bool], fates: &[Fate], way: &[u32], to: u32) -> Fate
    ensures { (table : List ℕ) (start : ℕ) → AreFates table stops.now fates.now
        → Runs table stops.now start way.now to → IsFate table stops.now to result }
{
    if !is_new(stops, to) {
        return Fate::Ends(Ending {
            to,
            steps: 0,
            last: None,
        });
    }
    if stands_in(way, to) {
        return Fate::Circle;
    }
    noted(fates, to)
}

/// Takes the last sector from a way, and notes what becomes of the links from it on, by what becomes of them behind it.
fn settle_last(fates: &mut Vec<Fate>, way: &mut Vec<u32>, fate: Fate) -> Fate
    requires { 0 < length way.old.items }
    ensures settling { (table : List ℕ) (stops : List Bool) (start : ℕ)
        → IsSettling table stops fates.old.items start way.old.items fate
        → IsSettling table stops fates.new.items start way.new.items result }
    ensures fewer { length way.new.items < length way.old.items }
{
    let Some(n) = way.pop() else {
        return fate;
    };
    let before = back(fate, n);
    note(fates, n, before);
    before
}

/// Notes what becomes of the links from a number on, and from all sectors on the way.
fn settle(
    alloc: Global,
    table: &[u32],
    stops: &[bool],
    fates: &mut Vec<Fate>,
    first: u32,
) -> Result<(), AllocError>
    requires sized { length stops.now ≡ length table.now }
    requires fates { AreFates table.now stops.now fates.old.items }
    ensures { OnOk result (AreFates table.now stops.now fates.new.items) }
{
    let mut way = Vec::new(alloc);
    let to = go(table, stops, fates, &mut way, first)?;
    let mut fate = fate_from(stops, fates, &way, to);
    while !way.is_empty() {
        fate = settle_last(fates, &mut way, fate);
    }
    Ok(())
}

/// What becomes of links in a table from the first sectors of those streams on that lie in it.
fn fates_of(
    alloc: Global,
    table: &[u32],
    stops: &[bool],
    streams: &[Stream],
    is_mini: bool,
) -> Result<Vec<Fate>, AllocError>
    requires { length stops.now ≡ length table.now }
    ensures { IfOk result (λ v. AreFates table.now stops.now v.items) }
{
    let mut fates = unknown(alloc, table.len())?;
    for stream in streams {
        if lies_in_minis(stream.size) == is_mini {
            settle(alloc, table, stops, &mut fates, stream.first)?;
        }
    }
    Ok(fates)
}

/// What becomes of the links of streams, where walks stop at these sectors.
pub(crate) fn fates_in(
    alloc: Global,
    parts: &Parts,
    streams: &[Stream],
    taken: &[u32],
) -> Result<Fates, AllocError>
    ensures { IfOk result (AreFatesOf parts.now taken.now) }
{
    let stops = marks(alloc, parts.table.len(), taken)?;
    let mini_stops = marks(alloc, parts.minis.len(), &[])?;
    let sectors = fates_of(alloc, &parts.table, &stops, streams, false)?;
    let minis = fates_of(alloc, &parts.minis, &mini_stops, streams, true)?;
    Ok(Fates {
        stops,
        mini_stops,
        sectors,
        minis,
    })
}

/// What becomes of the links of a stream.
pub(crate) fn fate_of(fates: &Fates, stream: &Stream) -> Fate
    ensures { (p : Parts) (taken : List ℕ) → AreFatesOf p taken fates.now → IsFateOf p taken stream.now result }
{
    if lies_in_minis(stream.size) {
        return fate_from(&fates.mini_stops, &fates.minis, &[], stream.first);
    }
    fate_from(&fates.stops, &fates.sectors, &[], stream.first)
}

/// Whether a fault is that of a chain in a circle.
fn is_cycle(fault: ChainFault) -> bool
    ensures { result ≡ false → fault ≢ Cycle }
{
    fault == ChainFault::Cycle
}

/// Whether links that lead out so have a fault.
fn is_end_at_fault(ending: Ending, chain: Chain, fault: ChainFault) -> bool
    ensures { result ≡ false → IsEndSpared ending chain fault }
{
    match fault {
        ChainFault::OutOfFile => ending.to != END_OF_CHAIN,
        ChainFault::ShortChain => is_short(
            ending.steps as usize,
            ending.to,
            chain.width,
            chain.size,
        ),
        _ => false,
    }
}

/// Whether a chain may have a fault other than that it leads to a taken sector, by what becomes of its links. Where it
/// may not, it has it nowhere.
pub(crate) fn may_have(fate: Fate, chain: Chain, fault: ChainFault) -> bool
    ensures { result ≡ false → fault ≢ CrossLinked → (table : List ℕ) → length table ≤ 0xFFFFFFF9
        → IsFate table (marks_of table []) chain.first fate → IsUnfaulted table [] chain fault }
{
    match fate {
        Fate::Ends(ending) => is_end_at_fault(ending, chain, fault),
        Fate::Circle => is_cycle(fault),
        Fate::Unknown => true,
        Fate::Met => true,
    }
}
