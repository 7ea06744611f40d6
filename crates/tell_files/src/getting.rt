//! Writing a stream of a compound file.

ghost use Rattle.tell_files.specs.Getting.{Gets, MayRefuseGet};
ghost use Rattle.cfb_header.specs.Header.{IsHeader, header_read};
ghost use Rattle.tell_files.specs.Gets.{Begun, LiesAt, Stands, of_copy_fault, of_places_fault};
ghost use Rattle.cfb_file.specs.Alike.{Alike};
ghost use Rattle.std.specs.Prelude.{◌≡◌, ◌≢◌, ◌⊎◌, IfErr, IfOk, IfSome, List, Ok, OnOk, length, ℕ};
ghost use Rattle.text_io.specs.declared.input.InputFault.TheVariants as input;

use crate::fault::GetFault;
use cfb_names::name::Name;
use read_files::fault::{ReadFault, StreamFault};
use read_files::read::find_placed;
use read_outlines::outline::Place;
use read_source::fault::PlacesFault;
use read_source::reading::{Catalog, read_catalog};
use read_source::source::Source;
use read_streams::blocks::{Lies, blocks_at};
use read_streams::copying::copy_blocks;
use read_streams::fault::CopyFault;
use std::alloc::Global;
use std::io::Write;
use text_io::input::InputFault;

/// A fault of a file of which only some blocks are read.
fn of_places(fault: PlacesFault) -> GetFault
    ensures { result ≡ of_places_fault fault }
{
    match fault {
        PlacesFault::Unreadable => GetFault::Input(InputFault::Unreadable),
        PlacesFault::TooBig => GetFault::Input(InputFault::TooBig),
        PlacesFault::NoMemory => GetFault::Input(InputFault::NoMemory),
        PlacesFault::Header(fault) => GetFault::Read(ReadFault::from(fault)),
    }
}

/// A fault of a stream that is copied.
fn of_copy(fault: CopyFault) -> GetFault
    ensures { result ≡ of_copy_fault fault }
{
    match fault {
        CopyFault::Unreadable => GetFault::Input(InputFault::Unreadable),
        CopyFault::NoMemory => GetFault::Input(InputFault::NoMemory),
        CopyFault::Unwritable => GetFault::Unwritable,
    }
}

/// A stream that was found: where it lies, and how many bytes the file has.
#[derive(Drop)]
struct Found {
    lies: Lies,
    len: usize,
}

/// The place where the stream at a path lies.
///
/// Refused: as `get_stream`, but for reading and writing.
fn place_of(alloc: Global, catalog: &Catalog, path: &[Name]) -> Result<Place, GetFault>
    requires header { header_read catalog.now.file ≡ Ok catalog.now.header }
    requires whole { IsHeader catalog.now.file }
    ensures found { IfOk result (λ place. (a : List ℕ) → Alike a catalog.now.file → LiesAt a path.now place) }
    ensures refused { IfErr result (λ fault. (a : List ℕ) → Alike a catalog.now.file → MayRefuseGet a path.now fault) }
{
    match find_placed(alloc, &catalog.header, &catalog.file, path) {
        Ok(place) => Ok(place),
        Err(StreamFault::Read(fault)) => Err(GetFault::Read(fault)),
        Err(StreamFault::Tree(fault)) => Err(GetFault::Tree(fault)),
    }
}

/// Finds the stream at a path.
///
/// Refused: as `get_stream`, but for writing.
fn seek<S: Source>(alloc: Global, source: &mut S, path: &[Name]) -> Result<Found, GetFault>
    ensures found { IfOk result
        (λ f. IfSome (S.bytes source.old) (λ file. (length file ≡ f.len) × Stands file path.now f.lies)) }
    ensures refused { IfErr result (λ fault. IfSome (S.bytes source.old) (λ file. MayRefuseGet file path.now fault)) }
    ensures kept { S.bytes source.new ≡ S.bytes source.old }
{
    let catalog = match read_catalog(alloc, source) {
        Ok(catalog) => catalog,
        Err(fault) => return Err(of_places(fault)),
    };
    let place = match place_of(alloc, &catalog, path) {
        Ok(place) => place,
        Err(fault) => return Err(fault),
    };
    match blocks_at(alloc, &catalog.header, &catalog.file, place) {
        Ok(lies) => Ok(Found {
            lies,
            len: catalog.file.len(),
        }),
        Err(_) => Err(GetFault::Input(InputFault::NoMemory)),
    }
}

/// Writes the bytes of the stream at a path of the tree that a compound file holds. Of the file it reads what tells
/// where the stream lies, and the blocks of the stream, a piece of at most 65,536 bytes at a time.
///
/// Refused: a file that isn't read, has more than 134,217,728 bytes or denotes no tree; `NotFound` where nothing stands
/// at the path; `WrongKind` where a storage does, or a stream on the way. Nothing is written then, but where a read
/// fails once writing has begun: then what was written is a front of the stream. `Unwritable` where a write fails.
pub fn get_stream<S: Source, W: Write>(
    alloc: Global,
    source: &mut S,
    path: &[Name],
    writer: &mut W,
) -> Result<(), GetFault>
    ensures got { OnOk result
        (IfSome (S.bytes source.old) (λ file. Gets file path.now (W.contents writer.old) (W.contents writer.new))) }
    ensures refused { IfErr result (λ fault. IfSome (S.bytes source.old) (λ file. MayRefuseGet file path.now fault)) }
    ensures unwritten { IfErr result (λ fault. fault ≢ GetFault.Unwritable → fault ≢ GetFault.Input input.Unreadable
        → writer.new ≡ writer.old) }
    ensures begun { IfErr result (λ fault. fault ≡ GetFault.Input input.Unreadable → (writer.new ≡ writer.old)
        ⊎ IfSome (S.bytes source.old) (λ file. Begun file path.now (W.contents writer.old)
        (W.contents writer.new))) }
{
    let found = seek(alloc, source, path)?;
    match copy_blocks(
        alloc,
        source,
        found.len,
        &found.lies.blocks,
        found.lies.size,
        writer,
    ) {
        Ok(()) => Ok(()),
        Err(fault) => Err(of_copy(fault)),
    }
}
