//! The chains of streams, and the links at which they are at fault.

ghost use Rattle.cfb_chains.specs.Chain.{IsChain};
ghost use Rattle.cfb_faults.specs.Faults.{Base, store_in};
ghost use Rattle.tell_chains.specs.Fates.{table_of};
ghost use Rattle.tell_chains.specs.Streams.{AreFew, IsBaseOf, IsSparedBy, IsStream, IsStreamAt, lies_in_minis};
ghost use Rattle.tell_entries.specs.Searches.{AreAllMet};
ghost use Rattle.tell_entries.specs.Ways.{end_of};
ghost use Rattle.tell_faults.specs.Places.{IsExamined, IsLinkAtFault, IsUnfaulted};
ghost use Rattle.tell_faults.specs.declared.walking.Examined.TheVariants.{AtFault};
ghost use Rattle.std.specs.List.{Contains};
ghost use Rattle.std.specs.Prelude.{◌≡◌, ◌≤◌, IfNone, IfOk, IfSome, List, length, ℕ};

use crate::parts::Parts;
use crate::place::{Owner, StreamPlace};
use crate::streams::{Stream, lies_in_minis, way_of};
use cfb_header::fault::ChainFault;
use std::alloc::{AllocError, Global};
use tell_entries::searching::Met;
use tell_faults::place::Link;
use tell_faults::walking::{Chain, Examined, SECTOR, chain_at, examine};

/// The bytes of a mini sector.
const MINI_SECTOR: u32 = 64;

/// The table of what a stream of so many bytes lies in.
pub(crate) fn table_for<'a>(parts: &'a Parts, size: u32) -> &'a [u32]
    ensures { result.now ≡ table_of parts.now size }
{
    if lies_in_minis(size) {
        return &parts.minis;
    }
    &parts.table
}

/// How wide a sector of it is.
fn width_for(size: u32) -> u32
    ensures { (p : Parts) → (b : Base) → IsBaseOf p b → (store_in b size).width ≡ result }
{
    if lies_in_minis(size) {
        return MINI_SECTOR;
    }
    SECTOR
}

/// The chain of a stream.
pub(crate) fn chain_of(stream: &Stream) -> Chain
    ensures first { result.first ≡ stream.now.first }
    ensures size { result.size ≡ stream.now.size }
    ensures wide { (p : Parts) → (b : Base) → IsBaseOf p b → (store_in b stream.now.size).width ≡ result.width }
{
    Chain {
        first: stream.first,
        width: width_for(stream.size),
        size: stream.size as u64,
    }
}

/// The sectors of a stream, or its mini sectors. None where its chain isn't whole.
pub(crate) fn sectors_of(
    alloc: Global,
    parts: &Parts,
    stream: &Stream,
) -> Result<Option<Vec<u32>>, AllocError>
    requires { AreFew parts.now }
    ensures { IfOk result (λ v. IfSome v (λ ns. (b : Base) → IsBaseOf parts.now b
        → IsChain (store_in b stream.now.size) stream.now.first stream.now.size ns.items)) }
{
    let chain = chain_of(stream);
    let table = table_for(parts, stream.size);
    chain_at(alloc, table, chain)
}

/// The link of what a chain is found to be.
fn link_of(found: &Examined) -> Option<Link>
    ensures at { IfSome result (λ link. found.now ≡ AtFault link) }
    ensures none { (table taken : List ℕ) (chain : Chain) (fault : ChainFault)
        → IsExamined table taken chain fault found.now → IfNone result (IsUnfaulted table taken chain fault) }
{
    match found {
        Examined::AtFault(link) => Some(*link),
        Examined::Whole(_) => None,
        Examined::Other => None,
    }
}

/// The link at which the chain of a stream has a fault, where some sectors are taken. None where it has it nowhere.
pub(crate) fn find_link(
    alloc: Global,
    parts: &Parts,
    taken: &[u32],
    stream: &Stream,
    fault: ChainFault,
) -> Result<Option<Link>, AllocError>
    requires { AreFew parts.now }
    ensures there { IfOk result (λ v. IfSome v (λ link. (b : Base) → IsBaseOf parts.now b
        → IsLinkAtFault (store_in b stream.now.size) (Contains taken.now) stream.now.first stream.now.size fault
        link)) }
    ensures none { IfOk result (λ v. IfNone v (IsSparedBy parts.now taken.now fault stream.now)) }
{
    let chain = chain_of(stream);
    let table = table_for(parts, stream.size);
    let found = examine(alloc, table, taken, chain, fault)?;
    Ok(link_of(&found))
}

/// The place of a stream at a link to a sector of this owner.
pub(crate) fn place_at(
    alloc: Global,
    directory: &[u8],
    met: &Met,
    stream: &Stream,
    link: Link,
    owner: Owner,
) -> Result<StreamPlace, AllocError>
    requires met { AreAllMet directory.now met.now.ids.items met.now.parents.items met.now.seen.items }
    requires stream { IsStream directory.now met.now.ids.items stream.now }
    ensures { IfOk result (λ p. IsStreamAt directory.now p.way.items × (end_of p.way.items ≡ stream.now.id)
        × (p.is_mini ≡ lies_in_minis stream.now.size) × (p.link ≡ link) × (p.owner ≡ owner)) }
{
    let way = way_of(alloc, directory, met, stream)?;
    Ok(StreamPlace {
        way,
        is_mini: lies_in_minis(stream.size),
        link,
        owner,
    })
}
