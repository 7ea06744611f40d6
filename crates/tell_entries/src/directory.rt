//! Finding the place at which the directory of a file is at fault.

ghost use Rattle.cfb_header.specs.Header.{IsHeader, header_of};
ghost use Rattle.tell_faults.specs.Tables.{AreTablesOf};
ghost use Rattle.tell_entries.specs.Ways.{IsDirectoryOf, IsFaultOfEntry, IsNoEntry, IsOfLinks};
ghost use Rattle.cfb_faults.specs.Faults.{IsDirectory};
ghost use Rattle.std.specs.Prelude.{◌≡◌, IfNone, IfOk, IfSome, List, ℕ};

use crate::looking::find_in_entries;
use crate::place::EntryPlace;
use cfb_header::fault::ChainFault;
use cfb_header::header::Header;
use cfb_names::fault::DirFault;
use read_chains::fat::Fat;
use read_chains::image::Image;
use std::alloc::{AllocError, Global};
use tell_faults::tables::{Tables, tables_of};
use tell_faults::walking::{Chain, SECTOR, chain_at};

/// The directory of a file.
#[derive(Drop)]
pub struct Directory {
    /// The sectors of its chain.
    pub sectors: Vec<u32>,
    /// What they hold, one after another.
    pub bytes: Vec<u8>,
}

/// The directory of a file with this header. None where the FAT is at fault, or the directory's chain has no end.
fn directory_of(
    alloc: Global,
    header: &Header,
    file: &[u8],
) -> Result<Option<Directory>, AllocError>
    requires same { header.now ≡ header_of file.now }
    ensures read { IfOk result (λ d. IfSome d (IsDirectoryOf file.now)) }
    ensures none { IfOk result (λ d. IfNone d ((dir : List ℕ) → IsDirectory file.now dir → ⊥)) }
{
    let fat = match Fat::load(alloc, header, Image::Whole(file)) {
        Ok(fat) => fat,
        Err(ChainFault::NoMemory) => return Err(AllocError),
        Err(_) => return Ok(None),
    };
    let tables = tables_of(alloc, header, file, fat)?;
    directory_by(alloc, header, file, &tables)
}

/// The same of a file with these tables.
fn directory_by(
    alloc: Global,
    header: &Header,
    file: &[u8],
    tables: &Tables<'_>,
) -> Result<Option<Directory>, AllocError>
    requires same { header.now ≡ header_of file.now }
    requires tables { AreTablesOf file.now tables.now.fat tables.now.lists.items tables.now.entries.items }
    ensures read { IfOk result (λ d. IfSome d (IsDirectoryOf file.now)) }
    ensures none { IfOk result (λ d. IfNone d ((dir : List ℕ) → IsDirectory file.now dir → ⊥)) }
{
    let chain = Chain {
        first: header.first_directory(),
        width: SECTOR,
        size: 0,
    };
    let found = chain_at(alloc, &tables.entries, chain)?;
    match found {
        Some(sectors) => {
            let bytes = tables.fat.join(alloc, &sectors)?;
            Ok(Some(Directory { sectors, bytes }))
        }
        None => Ok(None),
    }
}

/// The directory of a file, whatever else its chain runs into. None where the header or the FAT is at fault, or the
/// directory's chain has no end.
pub fn read_directory(alloc: Global, file: &[u8]) -> Result<Option<Directory>, AllocError>
    ensures read { IfOk result (λ d. IfSome d (IsDirectoryOf file.now)) }
    ensures none { IsHeader file.now → IfOk result (λ d. IfNone d ((dir : List ℕ) → IsDirectory file.now dir → ⊥)) }
{
    let Ok(header) = Header::read(file) else {
        return Ok(None);
    };
    directory_of(alloc, &header, file)
}

/// The place at which the directory of a file has a fault. Where the header is sound, None says that no entry has it,
/// whatever else is wrong with others; but of two entries of one name, of too many storages in one another and of
/// circles none may be found.
pub fn find_entry(
    alloc: Global,
    file: &[u8],
    fault: DirFault,
) -> Result<Option<EntryPlace>, AllocError>
    ensures there { IfOk result (λ p. IfSome p (IsFaultOfEntry file.now fault)) }
    ensures nowhere { IsHeader file.now → (IsOfLinks fault → ⊥)
        → IfOk result (λ p. IfNone p (IsNoEntry file.now fault)) }
{
    let found = read_directory(alloc, file)?;
    let Some(directory) = found else {
        return Ok(None);
    };
    find_in_entries(alloc, &directory.bytes, fault)
}
