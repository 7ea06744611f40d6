//! Finding the stream whose chain is at fault.

ghost use Rattle.cfb_faults.specs.Faults.{Base, store_in};
ghost use Rattle.cfb_file.specs.Denotes.{IsLaidOut, Layout};
ghost use Rattle.cfb_header.specs.Header.{IsHeader, header_of};
ghost use Rattle.cfb_header.specs.declared.fault.ChainFault.TheVariants.{CrossLinked};
ghost use Rattle.tell_chains.specs.Fates.{AreFatesOf};
ghost use Rattle.tell_chains.specs.Streams.{AreFew, ArePartsOf, AreStreams, IsBaseOf, IsFaultOfStream, IsNoPlace};
ghost use Rattle.tell_chains.specs.Streams.{IsNoStream, IsSparedBy, IsStream, IsStreamPlace};
ghost use Rattle.tell_entries.specs.Searches.{AreAllMet};
ghost use Rattle.tell_faults.specs.Places.{IsLinkAtFault};
ghost use Rattle.std.specs.List.{All, Contains};
ghost use Rattle.std.specs.Prelude.{[], ◌≡◌, ◌≢◌, ◌*◌, IfNone, IfOk, IfSome, false, length, true, ℕ};

use crate::crossings::find_crossed;
use crate::fates::{Fates, fate_of, fates_in, may_have};
use crate::links::{chain_of, find_link, place_at};
use crate::parts::{Parts, parts_of};
use crate::place::{Owner, StreamPlace};
use crate::streams::{Stream, streams_of};
use cfb_header::fault::ChainFault;
use cfb_header::header::Header;
use read_chains::fat::Fat;
use read_chains::image::Image;
use std::alloc::{AllocError, Global};
use tell_entries::own_faults::ENTRY;
use tell_entries::searching::{Met, meet_all};
use tell_faults::place::Link;
use tell_faults::tables::tables_of;

/// Whether a fault is that of a chain which leads to a taken sector.
fn is_crossing(fault: ChainFault) -> bool
    ensures crossing { result ≡ true → fault ≡ CrossLinked }
    ensures other { result ≡ false → fault ≢ CrossLinked }
{
    fault == ChainFault::CrossLinked
}

/// The link at which the chain of a stream has a fault other than that it leads to a taken sector.
fn link_at_fault(
    alloc: Global,
    parts: &Parts,
    fates: &Fates,
    stream: &Stream,
    fault: ChainFault,
) -> Result<Option<Link>, AllocError>
    requires few { AreFew parts.now }
    requires fates { AreFatesOf parts.now [] fates.now }
    requires other { fault ≢ CrossLinked }
    ensures there { IfOk result (λ v. IfSome v (λ link. (b : Base) → IsBaseOf parts.now b
        → IsLinkAtFault (store_in b stream.now.size) (Contains []) stream.now.first stream.now.size fault link)) }
    ensures none { IfOk result (λ v. IfNone v (IsSparedBy parts.now [] fault stream.now)) }
{
    if !may_have(fate_of(fates, stream), chain_of(stream), fault) {
        return Ok(None);
    }
    find_link(alloc, parts, &[], stream, fault)
}

/// The place at which one of the streams has a fault of its chain other than that it leads to a taken sector.
fn find_at_fault(
    alloc: Global,
    parts: &Parts,
    met: &Met,
    streams: &[Stream],
    fates: &Fates,
    fault: ChainFault,
) -> Result<Option<StreamPlace>, AllocError>
    requires few { AreFew parts.now }
    requires met { AreAllMet parts.now.directory.items met.now.ids.items met.now.parents.items met.now.seen.items }
    requires streams { All (IsStream parts.now.directory.items met.now.ids.items) streams.now }
    requires fates { AreFatesOf parts.now [] fates.now }
    requires other { fault ≢ CrossLinked }
    ensures there { IfOk result (λ v. IfSome v (λ p. (b : Base) → IsBaseOf parts.now b → IsStreamPlace b fault p)) }
    ensures none { IfOk result (λ v. IfNone v (All (IsSparedBy parts.now [] fault) streams.now)) }
{
    for stream in streams {
        let found = link_at_fault(alloc, parts, fates, stream, fault)?;
        if let Some(link) = found {
            let place = place_at(alloc, &parts.directory, met, stream, link, Owner::Nobody)?;
            return Ok(Some(place));
        }
    }
    Ok(None)
}

/// The place at which a stream of a file with these parts has a fault of its chain.
fn find_in_streams(
    alloc: Global,
    parts: &Parts,
    fault: ChainFault,
) -> Result<Option<StreamPlace>, AllocError>
    requires few { AreFew parts.now }
    requires whole { (m : ℕ) × (length parts.now.directory.items ≡ 128 * m) }
    ensures there { IfOk result (λ v. IfSome v (λ p. (b : Base) → IsBaseOf parts.now b → IsStreamPlace b fault p)) }
    ensures nowhere { fault ≢ CrossLinked → IfOk result (λ v. IfNone v (IsNoPlace parts.now fault)) }
{
    if parts.directory.len() < ENTRY {
        return Ok(None);
    }
    let met = meet_all(alloc, &parts.directory)?;
    let streams = streams_of(alloc, &parts.directory, &met)?;
    if is_crossing(fault) {
        return find_crossed(alloc, parts, &met, &streams);
    }
    let fates = fates_in(alloc, parts, &streams, &[])?;
    find_at_fault(alloc, parts, &met, &streams, &fates, fault)
}

/// The parts of a file with this header. None where it has none, or one of them is at fault.
fn parts_in(alloc: Global, header: &Header, file: &[u8]) -> Result<Option<Parts>, AllocError>
    requires same { header.now ≡ header_of file.now }
    ensures there { IfOk result (λ v. IfSome v (ArePartsOf file.now)) }
    ensures none { IfOk result (λ v. IfNone v ((l : Layout) → IsLaidOut file.now l → ⊥)) }
{
    let fat = match Fat::load(alloc, header, Image::Whole(file)) {
        Ok(fat) => fat,
        Err(ChainFault::NoMemory) => return Err(AllocError),
        Err(_) => return Ok(None),
    };
    let tables = tables_of(alloc, header, file, fat)?;
    parts_of(alloc, header, file, &tables)
}

/// The place at which the chain of a stream has a fault: the stream, the link at which its chain goes wrong, and whose
/// the sector is that it leads to where that is taken. Where the header is sound, None says that no stream of the
/// directory has the fault, whatever else is wrong with the file; but that the chain of one leads to a taken sector may
/// be missed.
pub fn find_stream(
    alloc: Global,
    file: &[u8],
    fault: ChainFault,
) -> Result<Option<StreamPlace>, AllocError>
    ensures there { IfOk result (λ v. IfSome v (IsFaultOfStream file.now fault)) }
    ensures nowhere { IsHeader file.now → fault ≢ CrossLinked
        → IfOk result (λ v. IfNone v (IsNoStream file.now fault)) }
{
    let Ok(header) = Header::read(file) else {
        return Ok(None);
    };
    let found = parts_in(alloc, &header, file)?;
    let Some(parts) = found else {
        return Ok(None);
    };
    find_in_streams(alloc, &parts, fault)
}
