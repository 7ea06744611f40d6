//! Whether a file holds a tree.

ghost use Rattle.cfb_header.specs.Header.{IsHeader, header_read};
ghost use Rattle.tell_files.specs.Checks.{IsTaken};
ghost use Rattle.cfb_file.specs.Denotes.{Denotes};
ghost use Rattle.std.specs.Prelude.{◌≡◌, IfErr, IfOk, IfSome, None, Ok};
ghost use Rattle.cfb_entries.specs.Tree.{Tree};
ghost use Rattle.read_files.specs.Reads.{MayRefuseRead};
ghost use Rattle.text_io.specs.Input.{MayRefuseInput};

use read_files::fault::ReadFault;
use read_files::read::read_placed;
use read_source::fault::PlacesFault;
use read_source::reading::{Catalog, read_catalog};
use read_source::source::Source;
use std::alloc::Global;
use text_io::input::InputFault;

/// Why a file holds no tree, by what its listing needs of it; none where it holds one.
///
/// Refused: a file that isn't read or has more than 134,217,728 bytes, and `NoMemory`.
pub(crate) fn judge<S: Source>(
    alloc: Global,
    source: &mut S,
) -> Result<Option<ReadFault>, InputFault>
    ensures sound { IfOk result (λ fault. fault ≡ None → IfSome (S.bytes source.old) IsTaken) }
    ensures at_fault { IfOk result
        (λ fault. IfSome fault (λ f. IfSome (S.bytes source.old) (λ file. MayRefuseRead file f))) }
    ensures refused { IfErr result (λ fault. IfSome (S.bytes source.old) (λ file. MayRefuseInput file fault)) }
    ensures kept { S.bytes source.new ≡ S.bytes source.old }
{
    match read_catalog(alloc, source) {
        Ok(catalog) => Ok(fault_of(alloc, &catalog)),
        Err(PlacesFault::Header(fault)) => Ok(Some(ReadFault::from(fault))),
        Err(PlacesFault::Unreadable) => Err(InputFault::Unreadable),
        Err(PlacesFault::TooBig) => Err(InputFault::TooBig),
        Err(PlacesFault::NoMemory) => Err(InputFault::NoMemory),
    }
}

/// The same of what was read of a file.
fn fault_of(alloc: Global, catalog: &Catalog) -> Option<ReadFault>
    requires read { header_read catalog.now.file ≡ Ok catalog.now.header }
    requires whole { IsHeader catalog.now.file }
    ensures sound { result ≡ None → (t : Tree) × Denotes catalog.now.file t }
    ensures at_fault { IfSome result (MayRefuseRead catalog.now.file) }
{
    let fault = match read_placed(alloc, &catalog.header, &catalog.file) {
        Ok(_) => return None,
        Err(fault) => fault,
    };
    Some(fault)
}
