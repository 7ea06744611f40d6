//! The blocks of a compound file that its listing needs.

ghost use Rattle.cfb_header.specs.Header.{IsHeader, header_read};
ghost use Rattle.cfb_file.specs.Alike.{Alike};
ghost use Rattle.read_source.specs.Filled.{MayRefusePlaces, most};
ghost use Rattle.std.specs.Prelude.{◌≡◌, ◌≤◌, IfErr, IfOk, IfSome, Ok, length};

use crate::chains::find_chains;
use crate::fault::PlacesFault;
use crate::listing::read_lists;
use crate::sectors::{read_bytes, read_sectors};
use crate::source::Source;
use cfb_header::header::Header;
use read_packed::places::{BLOCK, Held, Places};
use std::alloc::Global;

/// The most bytes that a file may have.
const MOST: u64 = 134_217_728;

/// What was read of a compound file.
#[derive(Drop)]
pub struct Catalog {
    /// What its header says.
    pub header: Header,
    /// Its bytes, zero bytes standing for those that weren't read.
    pub file: Places,
}

/// How many bytes a file has, of which there may be `MOST`.
fn read_len<S: Source>(source: &mut S) -> Result<usize, PlacesFault>
    ensures counted { IfOk result (λ n. IfSome (S.bytes source.old) (λ a. length a ≡ n)) }
    ensures few { IfOk result (λ _. IfSome (S.bytes source.old) (λ a. length a ≤ most)) }
    ensures refused { IfErr result (λ fault. IfSome (S.bytes source.old) (λ a. MayRefusePlaces a fault)) }
    ensures kept { S.bytes source.new ≡ S.bytes source.old }
{
    match source.size() {
        Ok(size) => {
            if size > MOST {
                return Err(PlacesFault::TooBig);
            }
            Ok(size as usize)
        }
        Err(_) => Err(PlacesFault::Unreadable),
    }
}

/// Reads of a file the header, the DIFAT, the FAT, the directory and the mini FAT: what its listing needs. Chains are
/// followed as far as the FAT goes, and what is wrong with them is found as the listing is made. The directory is held
/// as packed entries, which take less than half of the memory.
///
/// Refused: `Unreadable` where a read fails, `TooBig` for more than `MOST` bytes, `NoMemory`, and the fault of a
/// header.
pub fn read_catalog<S: Source>(alloc: Global, source: &mut S) -> Result<Catalog, PlacesFault>
    ensures header { IfOk result (λ c. header_read c.file ≡ Ok c.header) }
    ensures whole { IfOk result (λ c. IsHeader c.file) }
    ensures alike { IfOk result (λ c. IfSome (S.bytes source.old) (λ a. Alike a c.file)) }
    ensures few { IfOk result (λ _. IfSome (S.bytes source.old) (λ a. length a ≤ most)) }
    ensures refused { IfErr result (λ fault. IfSome (S.bytes source.old) (λ a. MayRefusePlaces a fault)) }
    ensures kept { S.bytes source.new ≡ S.bytes source.old }
{
    let len = read_len(source)?;
    let front = read_bytes(alloc, source, 0, len.min(BLOCK))?;
    let header = match Header::read(&front) {
        Ok(header) => header,
        Err(fault) => return Err(PlacesFault::Header(fault)),
    };
    let mut file = Places::new(alloc, len)?;
    file.put(alloc, 0, &front, Held::Plain)?;
    let sectors = read_lists(alloc, source, &mut file, &header)?;
    let chains = find_chains(alloc, &file, &sectors.fat, &header)?;
    file.reserve(chains.directory.len(), chains.mini_fat.len())?;
    read_sectors(alloc, source, &mut file, &chains.directory, Held::Entries)?;
    read_sectors(alloc, source, &mut file, &chains.mini_fat, Held::Plain)?;
    Ok(Catalog { header, file })
}
