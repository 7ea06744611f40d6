//! Listing files.

ghost use Rattle.tell_forms.specs.Listings.{told};
ghost use Rattle.tell_lists.specs.Lists.{IsOfWriting, Lists, ListsAs, MayRefuseList};
ghost use Rattle.std.specs.Io.KnownBytes.{Appends};
ghost use Rattle.std.specs.Prelude.{◌≡◌, ◌≢◌, IfErr, IfSome, OnOk};

use crate::fault::ListFault;
use read_files::read::read_placed;
use read_outlines::outline::Outline;
use read_source::reading::read_catalog;
use read_source::source::Source;
use std::alloc::Global;
use std::io::Write;
use tell_forms::asked_listings::Listing;
use text_io::output::write_all;

/// Writes the listing of the tree that a compound file holds, in lines.
///
/// Refused: as `list_as`.
pub fn list_file<S: Source, W: Write>(
    alloc: Global,
    source: &mut S,
    writer: &mut W,
) -> Result<(), ListFault>
    ensures listed { OnOk result
        (IfSome (S.bytes source.old) (λ file. Lists file (W.contents writer.old) (W.contents writer.new))) }
    ensures refused { IfErr result (λ fault. IfSome (S.bytes source.old) (λ file. MayRefuseList file fault)) }
    ensures unwritten { IfErr result (λ fault. fault ≢ ListFault.Unwritable → writer.new ≡ writer.old) }
{
    match list_as(alloc, Listing::Lines, source, writer) {
        Ok(()) => Ok(()),
        Err(fault) => Err(fault),
    }
}

/// Writes the listing of the tree that a compound file holds, as it is asked for. Only what the listing needs is read
/// of the file.
///
/// Refused: a file that isn't read, has more than 134,217,728 bytes or denotes no tree; `NoMemory`. Nothing is written
/// then. `Unwritable` where a write fails.
pub fn list_as<S: Source, W: Write>(
    alloc: Global,
    listing: Listing,
    source: &mut S,
    writer: &mut W,
) -> Result<(), ListFault>
    ensures listed { OnOk result
        (IfSome (S.bytes source.old) (λ file. ListsAs listing file (W.contents writer.old)
        (W.contents writer.new))) }
    ensures refused { IfErr result (λ fault. IfSome (S.bytes source.old) (λ file. MayRefuseList file fault)) }
    ensures unwritten { IfErr result (λ fault. fault ≢ ListFault.Unwritable → writer.new ≡ writer.old) }
{
    let catalog = match read_catalog(alloc, source) {
        Ok(catalog) => catalog,
        Err(fault) => return Err(ListFault::from(fault)),
    };
    let outline = match read_placed(alloc, &catalog.header, &catalog.file) {
        Ok(outline) => outline,
        Err(fault) => return Err(ListFault::Read(fault)),
    };
    write_listing(alloc, listing, &outline, writer)
}

/// Writes the listing of an outline.
///
/// Refused: `NoMemory`, where nothing is written, and `Unwritable` where a write fails.
fn write_listing<W: Write>(
    alloc: Global,
    listing: Listing,
    outline: &Outline,
    writer: &mut W,
) -> Result<(), ListFault>
    ensures written { OnOk result (Appends (W.contents writer.old) (W.contents writer.new) (told listing outline.now)) }
    ensures refused { IfErr result IsOfWriting }
    ensures unwritten { IfErr result (λ fault. fault ≢ ListFault.Unwritable → writer.new ≡ writer.old) }
{
    let text = match listing.text(alloc, outline) {
        Ok(text) => text,
        Err(_) => return Err(ListFault::NoMemory),
    };
    match write_all(writer, &text) {
        Ok(()) => Ok(()),
        Err(_) => Err(ListFault::Unwritable),
    }
}
