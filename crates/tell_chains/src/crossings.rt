//! Finding a stream whose chain leads to a sector that another stream or a part of the system has.

ghost use Rattle.cfb_chains.specs.Chain.{IsChain};
ghost use Rattle.cfb_faults.specs.Faults.{Base, store_in};
ghost use Rattle.cfb_header.specs.declared.fault.ChainFault.TheVariants.{CrossLinked};
ghost use Rattle.tell_chains.specs.Streams.{AreFew, IsBaseOf, IsStream, IsStreamPlace, lies_in_minis};
ghost use Rattle.tell_entries.specs.Searches.{AreAllMet};
ghost use Rattle.std.specs.List.{All};
ghost use Rattle.std.specs.Prelude.{◌≡◌, ◌≢◌, ◌<◌, IfOk, IfSome, length, true};

use crate::fates::{Ending, Fate, Fates, fate_of, fates_in};
use crate::links::{chain_of, find_link, place_at, sectors_of, table_for};
use crate::parts::Parts;
use crate::place::{Owner, StreamPlace};
use crate::streams::{Stream, lies_in_minis, way_of};
use cfb_header::fault::ChainFault;
use cfb_header::header::END_OF_CHAIN;
use std::alloc::{AllocError, Global};
use tell_entries::searching::Met;
use tell_faults::walking::is_whole;

/// To whose sector the chain of a stream leads.
#[derive(Clone, Copy)]
enum Crossing {
    /// Nobody's.
    Nobody,
    /// That of one of the system's own parts.
    System,
    /// That of another stream, by its place among the streams.
    Stream(usize),
}

/// Of the sectors and of the mini sectors the first whole stream whose chain ends there, by its place among the
/// streams: as many as there are streams where there is none.
#[derive(Drop)]
struct Endings {
    sectors: Vec<usize>,
    minis: Vec<usize>,
}

/// The last sector of a stream whose chain is whole, by what becomes of its links.
fn whole_end(fates: &Fates, stream: &Stream) -> Option<u32> {
    let chain = chain_of(stream);
    match fate_of(fates, stream) {
        Fate::Ends(ending) => {
            if is_whole(ending.steps as usize, ending.to, chain.width, chain.size) {
                return ending.last;
            }
            None
        }
        _ => None,
    }
}

/// Notes a stream as the first one whose chain ends at a sector, if none is noted there.
fn note_first(endings: &mut [usize], last: u32, at: usize) {
    let n = last as usize;
    if n < endings.len() && endings[n] > at {
        endings[n] = at;
    }
}

/// Where the chains of whole streams end.
fn endings_of(
    alloc: Global,
    parts: &Parts,
    streams: &[Stream],
    fates: &Fates,
) -> Result<Endings, AllocError> {
    let mut sectors = vec![in alloc; streams.len(); parts.table.len()]?;
    let mut minis = vec![in alloc; streams.len(); parts.minis.len()]?;
    for at in 0..streams.len() {
        if let Some(last) = whole_end(fates, &streams[at]) {
            if lies_in_minis(streams[at].size) {
                note_first(&mut minis, last, at);
            } else {
                note_first(&mut sectors, last, at);
            }
        }
    }
    Ok(Endings { sectors, minis })
}

/// The first whole stream whose chain ends where that of another one does.
fn first_of(endings: &Endings, stream: &Stream, last: u32) -> Option<usize> {
    if lies_in_minis(stream.size) {
        return endings.minis.get(last as usize).copied();
    }
    endings.sectors.get(last as usize).copied()
}

/// To whose sector links lead that lead out so, which are those of a stream with a place among so many.
fn crossing_at(
    endings: &Endings,
    stream: &Stream,
    ending: Ending,
    at: usize,
    count: usize,
) -> Crossing {
    if !lies_in_minis(stream.size) && (ending.to as usize) < endings.sectors.len() {
        return Crossing::System;
    }
    let Some(last) = ending.last else {
        return Crossing::Nobody;
    };
    match first_of(endings, stream, last) {
        Some(other) if other != at && other < count && ending.to == END_OF_CHAIN => {
            Crossing::Stream(other)
        }
        _ => Crossing::Nobody,
    }
}

/// The place of a stream whose chain leads to a sector of one of the system's own parts.
fn crossed_by_system(
    alloc: Global,
    parts: &Parts,
    met: &Met,
    stream: &Stream,
) -> Result<Option<StreamPlace>, AllocError>
    requires few { AreFew parts.now }
    requires met { AreAllMet parts.now.directory.items met.now.ids.items met.now.parents.items met.now.seen.items }
    requires stream { IsStream parts.now.directory.items met.now.ids.items stream.now }
    ensures { IfOk result
        (λ v. IfSome v (λ p. (b : Base) → IsBaseOf parts.now b → IsStreamPlace b CrossLinked p)) }
{
    if lies_in_minis(stream.size) {
        return Ok(None);
    }
    let found = find_link(alloc, parts, &parts.own, stream, ChainFault::CrossLinked)?;
    match found {
        Some(link) => {
            let place = place_at(alloc, &parts.directory, met, stream, link, Owner::System)?;
            Ok(Some(place))
        }
        None => Ok(None),
    }
}

/// Whether two streams are of two entries, both in sectors or both in mini sectors.
fn is_other(stream: &Stream, other: &Stream) -> bool
    ensures { result ≡ true → (other.now.id ≢ stream.now.id)
        × (lies_in_minis other.now.size ≡ lies_in_minis stream.now.size) }
{
    if other.id == stream.id {
        return false;
    }
    lies_in_minis(other.size) == lies_in_minis(stream.size)
}

/// The place of a stream whose chain leads to one of these sectors, which another stream has.
fn crossed_at(
    alloc: Global,
    parts: &Parts,
    met: &Met,
    stream: &Stream,
    other: &Stream,
    sectors: &[u32],
) -> Result<Option<StreamPlace>, AllocError>
    requires few { AreFew parts.now }
    requires met { AreAllMet parts.now.directory.items met.now.ids.items met.now.parents.items met.now.seen.items }
    requires stream { IsStream parts.now.directory.items met.now.ids.items stream.now }
    requires other { IsStream parts.now.directory.items met.now.ids.items other.now }
    requires apart { (other.now.id ≢ stream.now.id)
        × (lies_in_minis other.now.size ≡ lies_in_minis stream.now.size) }
    requires sectors { (b : Base) → IsBaseOf parts.now b
        → IsChain (store_in b other.now.size) other.now.first other.now.size sectors.now }
    ensures { IfOk result
        (λ v. IfSome v (λ p. (b : Base) → IsBaseOf parts.now b → IsStreamPlace b CrossLinked p)) }
{
    let found = find_link(alloc, parts, sectors, stream, ChainFault::CrossLinked)?;
    match found {
        Some(link) => {
            let way = way_of(alloc, &parts.directory, met, other)?;
            let place = place_at(
                alloc,
                &parts.directory,
                met,
                stream,
                link,
                Owner::Stream(way),
            )?;
            Ok(Some(place))
        }
        None => Ok(None),
    }
}

/// The place of a stream whose chain leads to a sector of another one that is whole.
fn crossed_by(
    alloc: Global,
    parts: &Parts,
    met: &Met,
    stream: &Stream,
    other: &Stream,
) -> Result<Option<StreamPlace>, AllocError>
    requires few { AreFew parts.now }
    requires met { AreAllMet parts.now.directory.items met.now.ids.items met.now.parents.items met.now.seen.items }
    requires stream { IsStream parts.now.directory.items met.now.ids.items stream.now }
    requires other { IsStream parts.now.directory.items met.now.ids.items other.now }
    ensures { IfOk result
        (λ v. IfSome v (λ p. (b : Base) → IsBaseOf parts.now b → IsStreamPlace b CrossLinked p)) }
{
    if !is_other(stream, other) {
        return Ok(None);
    }
    let found = sectors_of(alloc, parts, other)?;
    match found {
        Some(sectors) => crossed_at(alloc, parts, met, stream, other, &sectors),
        None => Ok(None),
    }
}

/// The place of one of the streams, whose chain may lead to such a sector.
fn find_crossing(
    alloc: Global,
    parts: &Parts,
    met: &Met,
    streams: &[Stream],
    at: usize,
    crossing: Crossing,
) -> Result<Option<StreamPlace>, AllocError>
    requires few { AreFew parts.now }
    requires met { AreAllMet parts.now.directory.items met.now.ids.items met.now.parents.items met.now.seen.items }
    requires streams { All (IsStream parts.now.directory.items met.now.ids.items) streams.now }
    requires inside { at < length streams.now }
    ensures { IfOk result
        (λ v. IfSome v (λ p. (b : Base) → IsBaseOf parts.now b → IsStreamPlace b CrossLinked p)) }
{
    match crossing {
        Crossing::Nobody => Ok(None),
        Crossing::System => crossed_by_system(alloc, parts, met, &streams[at]),
        Crossing::Stream(other) => {
            if other >= streams.len() {
                return Ok(None);
            }
            crossed_by(alloc, parts, met, &streams[at], &streams[other])
        }
    }
}

/// To whose sector the chain of a stream leads that has a place among so many, by what becomes of its links.
fn crossing_of(
    fates: &Fates,
    endings: &Endings,
    stream: &Stream,
    at: usize,
    count: usize,
) -> Crossing {
    match fate_of(fates, stream) {
        Fate::Ends(ending) => crossing_at(endings, stream, ending, at, count),
        _ => Crossing::Nobody,
    }
}

/// The place at which the chain of one of the streams leads to a sector that one of the system's own parts has, or
/// another stream. Two chains that share a sector and are whole end at one sector, so those that end together are
/// looked at, each stream with the first one.
pub(crate) fn find_crossed(
    alloc: Global,
    parts: &Parts,
    met: &Met,
    streams: &[Stream],
) -> Result<Option<StreamPlace>, AllocError>
    requires few { AreFew parts.now }
    requires met { AreAllMet parts.now.directory.items met.now.ids.items met.now.parents.items met.now.seen.items }
    requires streams { All (IsStream parts.now.directory.items met.now.ids.items) streams.now }
    ensures { IfOk result
        (λ v. IfSome v (λ p. (b : Base) → IsBaseOf parts.now b → IsStreamPlace b CrossLinked p)) }
{
    let fates = fates_in(alloc, parts, streams, &parts.own)?;
    let endings = endings_of(alloc, parts, streams, &fates)?;
    for at in 0..streams.len() {
        let crossing = crossing_of(&fates, &endings, &streams[at], at, streams.len());
        let found = find_crossing(alloc, parts, met, streams, at, crossing)?;
        if let Some(place) = found {
            return Ok(Some(place));
        }
    }
    Ok(None)
}
