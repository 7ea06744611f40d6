//! Finding the place at which a file is at fault.

ghost use Rattle.cfb_chains.specs.Chain.{IsChain, IsChainOf};
ghost use Rattle.cfb_chains.specs.Fat.{sectors_of};
ghost use Rattle.cfb_entries.specs.Entries.{entry_at, first_of, size_of};
ghost use Rattle.cfb_header.specs.Header.{IsHeader, first_directory, first_mini_fat, header_of, header_read, listed};
ghost use Rattle.cfb_header.specs.Header.{mini_fat_count};
ghost use Rattle.cfb_header.specs.declared.fault.ChainFault.TheVariants.{NoMemory};
ghost use Rattle.tell_faults.specs.Places.{IsDirectoryExamined, IsFaultAt, IsNowhere, IsUnfaultedAt};
ghost use Rattle.tell_faults.specs.Tables.{AreTablesOf};
ghost use Rattle.cfb_faults.specs.Faults.{IsFatAtFault};
ghost use Rattle.std.specs.Prelude.{◌*◌, ◌++◌, ◌≡◌, ◌≢◌, ◌≤◌, Err, IfNone, IfOk, IfSome, Some, length, true};

use crate::fat_faults::is_fat_at_fault;
use crate::place::FaultPlace;
use crate::root::root_of;
use crate::tables::{Tables, lists_of, tables_of};
use crate::walking::{Chain, Examined, SECTOR, examine};
use cfb_header::fault::ChainFault;
use cfb_header::header::Header;
use read_chains::fat::Fat;
use read_chains::image::Image;
use std::alloc::{AllocError, Global};

/// Whether two faults are the same one, other than want of memory.
fn is_same(a: ChainFault, b: ChainFault) -> bool
    ensures only { result ≡ true → (a ≡ b) × (a ≢ NoMemory) }
    ensures same { a ≡ b → a ≢ NoMemory → result ≡ true }
{
    if a == ChainFault::NoMemory {
        return false;
    }
    a == b
}

/// A place, where a fault is the one that is looked for.
fn place_if(found: bool, place: FaultPlace) -> Option<FaultPlace>
    ensures only { IfSome result (λ p. (found ≡ true) × (p ≡ place)) }
    ensures there { found ≡ true → result ≡ Some place }
{
    if found {
        return Some(place);
    }
    None
}

/// The place at which a file has a fault of its header, its FAT, or the chain of its directory, its mini FAT or its
/// mini stream. One of the header is found; where the header is sound, so is one of the others, and None says that none
/// of these has the fault, whatever else is wrong with them.
pub fn find_place(
    alloc: Global,
    file: &[u8],
    fault: ChainFault,
) -> Result<Option<FaultPlace>, AllocError>
    ensures there { IfOk result (λ p. IfSome p (IsFaultAt file.now fault)) }
    ensures header { header_read file.now ≡ Err fault → fault ≢ NoMemory
        → IfOk result (λ p. p ≡ Some FaultPlace.Header) }
    ensures nowhere { IsHeader file.now → IfOk result (λ p. IfNone p (IsNowhere file.now fault)) }
{
    let header = match Header::read(file) {
        Ok(header) => header,
        Err(other) => return Ok(place_if(is_same(other, fault), FaultPlace::Header)),
    };
    find_in_fat(alloc, &header, file, fault)
}

/// The same in a file with this header.
fn find_in_fat(
    alloc: Global,
    header: &Header,
    file: &[u8],
    fault: ChainFault,
) -> Result<Option<FaultPlace>, AllocError>
    requires same { header.now ≡ header_of file.now }
    ensures there { IfOk result (λ p. IfSome p (IsFaultAt file.now fault)) }
    ensures nowhere { IfOk result (λ p. IfNone p (IsFatAtFault file.now fault → ⊥)) }
    ensures directory { IfOk result (λ p. IfNone p (IsUnfaultedAt file.now fault FaultPlace.Directory)) }
    ensures mini_fat { IfOk result (λ p. IfNone p (IsUnfaultedAt file.now fault FaultPlace.MiniFat)) }
    ensures mini_stream { IfOk result (λ p. IfNone p (IsUnfaultedAt file.now fault FaultPlace.MiniStream)) }
{
    match Fat::load(alloc, header, Image::Whole(file)) {
        Ok(fat) => {
            let tables = tables_of(alloc, header, file, fat)?;
            find_in_directory(alloc, header, file, &tables, fault)
        }
        Err(ChainFault::NoMemory) => Err(AllocError),
        Err(_) => find_in_lists(alloc, header, file, fault),
    }
}

/// The same of the FAT and the directory alone, where the FAT is at fault.
fn find_in_lists(
    alloc: Global,
    header: &Header,
    file: &[u8],
    fault: ChainFault,
) -> Result<Option<FaultPlace>, AllocError>
    requires same { header.now ≡ header_of file.now }
    ensures there { IfOk result (λ p. IfSome p (IsFaultAt file.now fault)) }
    ensures nowhere { IfOk result (λ p. IfNone p (IsFatAtFault file.now fault → ⊥)) }
    ensures directory { IfOk result (λ p. IfNone p (IsUnfaultedAt file.now fault FaultPlace.Directory)) }
{
    let lists = lists_of(alloc, header, file)?;
    let all = both(alloc, &lists.fat, &lists.difat)?;
    if is_fat_at_fault(&lists, &all, header.fat_count(), fault) {
        return Ok(Some(FaultPlace::Fat));
    }
    let found = examine_directory(alloc, header, &all, &lists.entries, fault)?;
    match found {
        Examined::AtFault(link) => Ok(Some(FaultPlace::Directory(link))),
        Examined::Whole(_) => Ok(None),
        Examined::Other => Ok(None),
    }
}

/// What the directory's chain is found to be, by the entries of a FAT, where these sectors are taken.
fn examine_directory(
    alloc: Global,
    header: &Header,
    taken: &[u32],
    entries: &[u32],
    fault: ChainFault,
) -> Result<Examined, AllocError>
    requires few { length entries.now ≤ 0xFFFFFFF9 }
    ensures { IfOk result (IsDirectoryExamined entries.now taken.now header.now.first_directory fault) }
{
    let chain = Chain {
        first: header.first_directory(),
        width: SECTOR,
        size: 0,
    };
    examine(alloc, entries, taken, chain, fault)
}

/// The same in a file with this header and these tables.
fn find_in_directory(
    alloc: Global,
    header: &Header,
    file: &[u8],
    tables: &Tables<'_>,
    fault: ChainFault,
) -> Result<Option<FaultPlace>, AllocError>
    requires same { header.now ≡ header_of file.now }
    requires tables { AreTablesOf file.now tables.now.fat tables.now.lists.items tables.now.entries.items }
    ensures there { IfOk result (λ p. IfSome p (IsFaultAt file.now fault)) }
    ensures directory { IfOk result (λ p. IfNone p (IsUnfaultedAt file.now fault FaultPlace.Directory)) }
    ensures mini_fat { IfOk result (λ p. IfNone p (IsUnfaultedAt file.now fault FaultPlace.MiniFat)) }
    ensures mini_stream { IfOk result (λ p. IfNone p (IsUnfaultedAt file.now fault FaultPlace.MiniStream)) }
{
    let found = examine_directory(alloc, header, &tables.lists, &tables.entries, fault)?;
    match found {
        Examined::AtFault(link) => Ok(Some(FaultPlace::Directory(link))),
        Examined::Whole(sectors) => find_in_mini_fat(alloc, header, file, tables, &sectors, fault),
        Examined::Other => Ok(None),
    }
}

/// Some sectors, and then others.
fn both(alloc: Global, some: &[u32], others: &[u32]) -> Result<Vec<u32>, AllocError>
    ensures { IfOk result (λ v. v.items ≡ some.now ++ others.now) }
{
    let mut all = Vec::from_slice(alloc, some)?;
    all.extend_from_slice(others)?;
    Ok(all)
}

/// The same of three lists.
pub fn all_of(
    alloc: Global,
    some: &[u32],
    others: &[u32],
    more: &[u32],
) -> Result<Vec<u32>, AllocError>
    ensures { IfOk result (λ v. v.items ≡ some.now ++ others.now ++ more.now) }
{
    let mut all = both(alloc, some, others)?;
    all.extend_from_slice(more)?;
    Ok(all)
}

/// The same where the directory lies in these sectors.
fn find_in_mini_fat(
    alloc: Global,
    header: &Header,
    file: &[u8],
    tables: &Tables<'_>,
    directory: &[u32],
    fault: ChainFault,
) -> Result<Option<FaultPlace>, AllocError>
    requires same { header.now ≡ header_of file.now }
    requires tables { AreTablesOf file.now tables.now.fat tables.now.lists.items tables.now.entries.items }
    requires directory { IsChain (sectors_of file.now (listed file.now)) (first_directory file.now) 0 directory.now }
    ensures there { IfOk result (λ p. IfSome p (IsFaultAt file.now fault)) }
    ensures mini_fat { IfOk result (λ p. IfNone p (IsUnfaultedAt file.now fault FaultPlace.MiniFat)) }
    ensures mini_stream { IfOk result (λ p. IfNone p (IsUnfaultedAt file.now fault FaultPlace.MiniStream)) }
{
    let count = header.mini_fat_count();
    if count == 0 {
        return find_in_mini_stream(alloc, file, tables, directory, &[], fault);
    }
    let taken = both(alloc, &tables.lists, directory)?;
    let chain = Chain {
        first: header.first_mini_fat(),
        width: SECTOR,
        size: 512 * count as u64,
    };
    let found = examine(alloc, &tables.entries, &taken, chain, fault)?;
    match found {
        Examined::AtFault(link) => Ok(Some(FaultPlace::MiniFat(link))),
        Examined::Whole(mini_fat) => {
            find_in_mini_stream(alloc, file, tables, directory, &mini_fat, fault)
        }
        Examined::Other => Ok(None),
    }
}

/// The chain of the mini stream, as the first entry of a directory of these bytes names it.
fn mini_stream_of(directory: &[u8]) -> Chain
    ensures first { result.first ≡ first_of (entry_at directory.now 0) }
    ensures size { result.size ≡ size_of (entry_at directory.now 0) }
    ensures wide { result.width ≡ 512 }
{
    let (first, size) = root_of(directory);
    Chain {
        first,
        width: SECTOR,
        size: size as u64,
    }
}

/// The same where the mini FAT lies in these sectors.
fn find_in_mini_stream(
    alloc: Global,
    file: &[u8],
    tables: &Tables<'_>,
    directory: &[u32],
    mini_fat: &[u32],
    fault: ChainFault,
) -> Result<Option<FaultPlace>, AllocError>
    requires tables { AreTablesOf file.now tables.now.fat tables.now.lists.items tables.now.entries.items }
    requires directory { IsChain (sectors_of file.now (listed file.now)) (first_directory file.now) 0 directory.now }
    requires mini_fat { IsChainOf (sectors_of file.now (listed file.now)) (first_mini_fat file.now)
        (512 * mini_fat_count file.now) mini_fat.now }
    ensures there { IfOk result (λ p. IfSome p (IsFaultAt file.now fault)) }
    ensures mini_stream { IfOk result (λ p. IfNone p (IsUnfaultedAt file.now fault FaultPlace.MiniStream)) }
{
    let bytes = tables.fat.join(alloc, directory)?;
    let chain = mini_stream_of(&bytes);
    if chain.size == 0 {
        return Ok(None);
    }
    let taken = all_of(alloc, &tables.lists, directory, mini_fat)?;
    let found = examine(alloc, &tables.entries, &taken, chain, fault)?;
    match found {
        Examined::AtFault(link) => Ok(Some(FaultPlace::MiniStream(link))),
        Examined::Whole(_) => Ok(None),
        Examined::Other => Ok(None),
    }
}
