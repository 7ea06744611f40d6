//! Maps of files.

ghost use Rattle.tell_lists.specs.Lists.{IsOfWriting, MayRefuseList};
ghost use Rattle.tell_files.specs.Maps.{Maps};
ghost use Rattle.cfb_entries.specs.Tree.{Tree};
ghost use Rattle.cfb_file.specs.Alike.{Alike};
ghost use Rattle.cfb_file.specs.Denotes.{Denotes, directory_of};
ghost use Rattle.cfb_header.specs.Header.{header_read};
ghost use Rattle.read_outlines.specs.Places.{IsTold};
ghost use Rattle.read_outlines.specs.View.{outline_view};
ghost use Rattle.tell_maps.specs.Maps.{mapped};
ghost use Rattle.std.specs.Io.KnownBytes.{Appends};
ghost use Rattle.std.specs.Prelude.{◌≡◌, ◌≢◌, IfErr, IfSome, List, Ok, OnOk, ℕ};

use read_files::read::read_placed;
use read_outlines::outline::Outline;
use read_source::reading::{Catalog, read_catalog};
use read_source::source::Source;
use std::alloc::Global;
use std::io::Write;
use tell_lists::fault::ListFault;
use tell_maps::map::map_of;
use text_io::output::write_all;

/// Writes the map of a compound file: what each of its sectors is, and how many bytes are free or behind the ends of
/// streams. Only what a listing needs is read of the file.
///
/// Refused: a file that isn't read, has more than 134,217,728 bytes or denotes no tree; `NoMemory`. Nothing is written
/// then. `Unwritable` where a write fails.
pub fn map_file<S: Source, W: Write>(
    alloc: Global,
    source: &mut S,
    writer: &mut W,
) -> Result<(), ListFault>
    ensures mapped { OnOk result
        (IfSome (S.bytes source.old) (λ file. Maps file (W.contents writer.old) (W.contents writer.new))) }
    ensures refused { IfErr result (λ fault. IfSome (S.bytes source.old) (λ file. MayRefuseList file fault)) }
    ensures unwritten { IfErr result (λ fault. fault ≢ ListFault.Unwritable → writer.new ≡ writer.old) }
{
    let catalog = match read_catalog(alloc, source) {
        Ok(catalog) => catalog,
        Err(fault) => return Err(ListFault::from(fault)),
    };
    let outline = match read_placed(alloc, &catalog.header, &catalog.file) {
        Ok(outline) => outline,
        Err(fault) => return Err(ListFault::Read(fault)),
    };
    write_map(alloc, &catalog, &outline, writer)
}

/// Writes the map of a file of this outline, of which was read what its listing needs.
///
/// Refused: `NoMemory`, where nothing is written, and `Unwritable` where a write fails.
fn write_map<W: Write>(
    alloc: Global,
    catalog: &Catalog,
    outline: &Outline,
    writer: &mut W,
) -> Result<(), ListFault>
    requires read { header_read catalog.now.file ≡ Ok catalog.now.header }
    ensures written { OnOk result ((a : List ℕ) → Alike a catalog.now.file → (t : Tree) → (d : Denotes a t)
        → IsTold (directory_of a d.layout) 0 outline.now
        → Appends (W.contents writer.old) (W.contents writer.new)
        (mapped a d.layout d.used.sectors (outline_view outline.now))) }
    ensures refused { IfErr result IsOfWriting }
    ensures unwritten { IfErr result (λ fault. fault ≢ ListFault.Unwritable → writer.new ≡ writer.old) }
{
    let text = match map_of(alloc, &catalog.header, &catalog.file, outline) {
        Ok(text) => text,
        Err(_) => return Err(ListFault::NoMemory),
    };
    match write_all(writer, &text) {
        Ok(()) => Ok(()),
        Err(_) => Err(ListFault::Unwritable),
    }
}
