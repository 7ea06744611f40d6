//! What a file holds, and where its streams lie.

ghost use Rattle.cfb_header.specs.Header.{IsHeader, header_read};
ghost use Rattle.cfb_file.specs.Alike.{Alike};
ghost use Rattle.write_cleaned.specs.Opened.{IsOpenedOf};
ghost use Rattle.write_cleaned.specs.Sources.{MayRefuseSource};
ghost use Rattle.read_outlines.specs.Places.{IsPlaced};
ghost use Rattle.std.specs.Prelude.{◌*◌, ◌≡◌, IfErr, IfOk, IfSome, List, Ok, length, ℕ, ◌≤◌, OnOk};
ghost use Rattle.text_io.specs.Input.{most};
ghost use Rattle.cfb_entries.specs.Tree.{Tree};
ghost use Rattle.read_files.specs.Reads.{MayRefuseRead};

use crate::moving_fault::{SourceFault, of_places};
use read_files::fault::ReadFault;
use read_files::read::read_placed;
use read_outlines::outline::Outline;
use read_source::reading::{Catalog, read_catalog};
use read_source::source::Source;
use read_streams::tables::{Tables, tables_of};
use std::alloc::Global;
use text_io::input::InputFault;

/// What a file holds, and what finds its streams.
#[derive(Drop)]
pub struct Opened {
    pub outline: Outline,
    pub tables: Tables,
}

/// The outline of a file of which some blocks were read.
///
/// Refused: as `read_placed`.
fn outline_of(alloc: Global, catalog: &Catalog) -> Result<Outline, ReadFault>
    requires header { header_read catalog.now.file ≡ Ok catalog.now.header }
    requires whole { IsHeader catalog.now.file }
    ensures placed { IfOk result (λ o. (a : List ℕ) → Alike a catalog.now.file → (t : Tree) × ∥ IsPlaced a t o ∥₁) }
    ensures refused { IfErr result (λ fault. (a : List ℕ) → Alike a catalog.now.file → MayRefuseRead a fault) }
{
    match read_placed(alloc, &catalog.header, &catalog.file) {
        Ok(outline) => Ok(outline),
        Err(fault) => Err(fault),
    }
}

/// What a compound file that can be sought in holds: of its bytes it reads what a listing needs, and no stream.
///
/// Refused: `Input` where a read fails, for more than 134,217,728 bytes, and for want of memory; `Read` where the bytes
/// denote no tree.
pub fn open<S: Source>(alloc: Global, source: &mut S) -> Result<Opened, SourceFault>
    ensures opened { IfOk result
        (λ opened. IfSome (S.bytes source.old) (λ file. (t : Tree) × ∥ IsOpenedOf file t opened ∥₁)) }
    ensures whole { IfOk result (λ opened. (m : ℕ) × (length opened.tables.mini_fat.items ≡ 4 * m)) }
    ensures few { OnOk result (IfSome (S.bytes source.old) (λ file. length file ≤ most)) }
    ensures refused { IfErr result (λ fault. IfSome (S.bytes source.old) (λ file. MayRefuseSource file fault)) }
    ensures kept { S.bytes source.new ≡ S.bytes source.old }
{
    let catalog = match read_catalog(alloc, source) {
        Ok(catalog) => catalog,
        Err(fault) => return Err(of_places(fault)),
    };
    let outline = match outline_of(alloc, &catalog) {
        Ok(outline) => outline,
        Err(fault) => return Err(SourceFault::Read(fault)),
    };
    match tables_of(alloc, &catalog.header, &catalog.file) {
        Ok(tables) => Ok(Opened { outline, tables }),
        Err(_) => Err(SourceFault::Input(InputFault::NoMemory)),
    }
}
