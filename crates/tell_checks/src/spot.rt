//! The place at which a file is at fault, with the path of its entry and the byte at which it stands.

ghost use Rattle.cfb_header.specs.Header.{IsHeader, header_read};
ghost use Rattle.cfb_header.specs.declared.fault.ChainFault.{ChainFault};
ghost use Rattle.cfb_header.specs.declared.fault.ChainFault.TheVariants.{CrossLinked, NoMemory};
ghost use Rattle.tell_chains.specs.Streams.{IsNoStream};
ghost use Rattle.tell_faults.specs.Places.{IsNowhere as IsNoPart};
ghost use Rattle.tell_entries.specs.Ways.{IsNoEntry, IsOfLinks};
ghost use Rattle.tell_checks.specs.Spots.{IsHeaderTold, IsNowhere, IsPathOf, IsPlaceOf, IsPlaceTold, IsSpotOf, way_of};
ghost use Rattle.std.specs.Prelude.{[], ◌∷◌, ◌≡◌, ◌≢◌, ◌++◌, Err, IfNone, IfOk, IfSome, Some, string_bytes};

use crate::bytes::byte_of;
use crate::paths::path_of;
use cfb_header::fault::ChainFault;
use cfb_names::fault::DirFault;
use read_files::fault::ReadFault;
use std::alloc::{AllocError, Global};
use tell_chains::chains::find_stream;
use tell_chains::place::StreamPlace;
use tell_entries::directory::find_entry;
use tell_entries::place::EntryPlace;
use tell_faults::finding::find_place;
use tell_faults::place::FaultPlace;

/// A place at which a file has a fault.
#[derive(Drop)]
pub enum Place {
    /// Of the header, or of a chain of one of the system's own parts.
    Chain(FaultPlace),
    /// Of a stream's chain.
    Stream(StreamPlace),
    /// Of the directory.
    Entry(EntryPlace),
}

/// A place at which a file has a fault, and what is known of it.
#[derive(Drop)]
pub struct Spot {
    /// The place.
    pub place: Place,
    /// The path of the entry that it is of, as `list` spells it. Where the name of an entry on the way to it can't be
    /// read, the path ends before it, with a slash. None for the root, and where no name is known.
    pub path: Option<String>,
    /// The byte of the file at which the number stands that a chain goes wrong by, or at which the entry begins.
    pub byte: Option<u32>,
}

/// The place at which a file has a fault of its header or a chain of its parts.
fn place_in_parts(
    alloc: Global,
    file: &[u8],
    fault: ChainFault,
) -> Result<Option<Place>, AllocError>
    ensures there { IfOk result (λ p. IfSome p (IsPlaceOf file.now (ReadFault.Chain fault))) }
    ensures header { header_read file.now ≡ Err fault → fault ≢ NoMemory
        → IfOk result (λ p. p ≡ Some (Place.Chain FaultPlace.Header)) }
    ensures nowhere { IsHeader file.now → IfOk result (λ p. IfNone p (IsNoPart file.now fault)) }
{
    match find_place(alloc, file, fault) {
        Ok(Some(place)) => Ok(Some(Place::Chain(place))),
        Ok(None) => Ok(None),
        Err(error) => Err(error),
    }
}

/// The place at which a file has a fault of a stream's chain.
fn place_in_streams(
    alloc: Global,
    file: &[u8],
    fault: ChainFault,
) -> Result<Option<Place>, AllocError>
    ensures there { IfOk result (λ p. IfSome p (IsPlaceOf file.now (ReadFault.Chain fault))) }
    ensures nowhere { IsHeader file.now → fault ≢ CrossLinked
        → IfOk result (λ p. IfNone p (IsNoStream file.now fault)) }
{
    match find_stream(alloc, file, fault) {
        Ok(Some(place)) => Ok(Some(Place::Stream(place))),
        Ok(None) => Ok(None),
        Err(error) => Err(error),
    }
}

/// The place at which a file has a fault of its header or a chain.
fn place_in_chains(
    alloc: Global,
    file: &[u8],
    fault: ChainFault,
) -> Result<Option<Place>, AllocError>
    ensures there { IfOk result (λ p. IfSome p (IsPlaceOf file.now (ReadFault.Chain fault))) }
    ensures header { header_read file.now ≡ Err fault → fault ≢ NoMemory
        → IfOk result (λ p. p ≡ Some (Place.Chain FaultPlace.Header)) }
    ensures nowhere { IsHeader file.now → IfOk result (λ p. IfNone p (IsNoPart file.now fault)) }
    ensures streams { IsHeader file.now → fault ≢ CrossLinked
        → IfOk result (λ p. IfNone p (IsNoStream file.now fault)) }
{
    match place_in_parts(alloc, file, fault) {
        Ok(Some(place)) => Ok(Some(place)),
        Ok(None) => place_in_streams(alloc, file, fault),
        Err(error) => Err(error),
    }
}

/// The place at which a file has a fault of its directory.
fn place_in_directory(
    alloc: Global,
    file: &[u8],
    fault: DirFault,
) -> Result<Option<Place>, AllocError>
    ensures there { IfOk result (λ p. IfSome p (IsPlaceOf file.now (ReadFault.Directory fault))) }
    ensures nowhere { IsHeader file.now → (IsOfLinks fault → ⊥)
        → IfOk result (λ p. IfNone p (IsNoEntry file.now fault)) }
{
    match find_entry(alloc, file, fault) {
        Ok(Some(place)) => Ok(Some(Place::Entry(place))),
        Ok(None) => Ok(None),
        Err(error) => Err(error),
    }
}

/// The place at which a file has a fault.
fn place_of(alloc: Global, file: &[u8], fault: ReadFault) -> Result<Option<Place>, AllocError>
    ensures there { IfOk result (λ p. IfSome p (IsPlaceOf file.now fault)) }
    ensures header { (e : ChainFault) → header_read file.now ≡ Err e → fault ≡ ReadFault.Chain e
        → IfOk result (λ p. p ≡ Some (Place.Chain FaultPlace.Header)) }
    ensures nowhere { IsHeader file.now → IfOk result (λ p. IfNone p (IsNowhere file.now fault)) }
{
    match fault {
        ReadFault::Chain(chain) => place_in_chains(alloc, file, chain),
        ReadFault::Directory(directory) => place_in_directory(alloc, file, directory),
        ReadFault::NoMemory => Ok(None),
    }
}

/// The way to the entry of a place: the entries on it below the root. None where it is of no entry, or of the root.
fn way_of(alloc: Global, place: &Place) -> Result<Vec<u32>, AllocError>
    ensures { IfOk result (λ way. way.items ≡ way_of place.now) }
{
    match place {
        Place::Chain(_) => Ok(Vec::new(alloc)),
        Place::Stream(stream) => Vec::from_slice(alloc, &stream.way),
        Place::Entry(EntryPlace::Nowhere) => Ok(Vec::new(alloc)),
        Place::Entry(EntryPlace::Entry(way)) => Vec::from_slice(alloc, way),
        Place::Entry(EntryPlace::Twins(way, _, other)) => with_last(alloc, way, *other),
    }
}

/// A way with one entry more.
fn with_last(alloc: Global, way: &[u32], last: u32) -> Result<Vec<u32>, AllocError>
    ensures { IfOk result (λ v. v.items ≡ way.now ++ last ∷ []) }
{
    let mut longer = Vec::from_slice(alloc, way)?;
    longer.push(last)?;
    Ok(longer)
}

/// The path of the entry of a place, as far as it is known.
fn known_path(alloc: Global, file: &[u8], place: &Place) -> Result<Option<String>, AllocError>
    ensures { IfOk result (λ p. IfSome p (λ path. IsPathOf file.now (way_of place.now) (string_bytes path))) }
{
    let way = way_of(alloc, place)?;
    path_of(alloc, file, &way)
}

/// The place at which a file has a fault, where one is found, with the path of its entry and the byte, where these are
/// known. That of a fault of the header is found. Where the header is sound, so is a place of the FAT, of the chain of
/// the directory, the mini FAT, the mini stream or a stream, and of an entry that is at fault by itself or from which
/// links lead outside, whatever else is wrong with the file. It isn't promised that one of a stream's chain is found
/// that leads to a taken sector, nor one of two entries of one name, of too many storages in one another and of links
/// in a circle.
///
/// Refused for want of memory alone.
pub fn find_spot(alloc: Global, file: &[u8], fault: ReadFault) -> Result<Option<Spot>, AllocError>
    ensures there { IfOk result (λ s. IfSome s (IsSpotOf file.now fault)) }
    ensures header { IfOk result (IsHeaderTold file.now fault) }
    ensures told { IfOk result (IsPlaceTold file.now fault) }
{
    let found = place_of(alloc, file, fault)?;
    let Some(place) = found else {
        return Ok(None);
    };
    let path = known_path(alloc, file, &place)?;
    let byte = byte_of(alloc, file, &place)?;
    Ok(Some(Spot { place, path, byte }))
}
