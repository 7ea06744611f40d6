//! The parts of a file in which its streams lie.

ghost use Rattle.cfb_bytes.specs.Bytes.{u32_at};
ghost use Rattle.cfb_chains.specs.Chain.{IsChain, IsChainOf, Store};
ghost use Rattle.cfb_chains.specs.Fat.{mini_sectors_of, sectors_of};
ghost use Rattle.cfb_file.specs.Denotes.{IsLaidOut, Layout};
ghost use Rattle.cfb_header.specs.Header.{first_directory, first_mini_fat, header_of, listed, mini_fat_count};
ghost use Rattle.tell_chains.specs.Streams.{ArePartsOf};
ghost use Rattle.tell_faults.specs.Tables.{AreTablesOf, IsTabled};
ghost use Rattle.std.specs.Prelude.{◌*◌, ◌<◌, ◌≡◌, ◌≤◌, IfNone, IfOk, IfSome, List, length, slice_index, take, ℕ};

use cfb_bytes::numbers::read_u32;
use cfb_header::header::Header;
use std::alloc::{AllocError, Global};
use tell_faults::finding::all_of;
use tell_faults::root::root_of;
use tell_faults::tables::Tables;
use tell_faults::walking::{Chain, SECTOR, chain_at};

/// What is read of a file to find its streams.
#[derive(Drop)]
pub(crate) struct Parts {
    /// The entries of the FAT.
    pub(crate) table: Vec<u32>,
    /// The entries of the mini FAT.
    pub(crate) minis: Vec<u32>,
    /// The sectors of the system's own parts.
    pub(crate) own: Vec<u32>,
    /// The bytes of the directory.
    pub(crate) directory: Vec<u8>,
}

/// So many numbers of four bytes each.
fn numbers(alloc: Global, bytes: &[u8], count: usize) -> Result<Vec<u32>, AllocError>
    requires { 4 * count ≤ length bytes.now }
    ensures count { IfOk result (λ v. length v.items ≡ count) }
    ensures each { IfOk result (λ v. (k : ℕ) → k < count → slice_index v.items k ≡ u32_at bytes.now (4 * k)) }
{
    let mut numbers = Vec::with_capacity(alloc, count)?;
    for k in 0..count {
        numbers.push(read_u32(bytes, 4 * k))?;
    }
    Ok(numbers)
}

/// A chain with room for some bytes, or none where there are none. None is told where it isn't whole.
fn chain_or_none(alloc: Global, table: &[u32], chain: Chain) -> Result<Option<Vec<u32>>, AllocError>
    requires { length table.now ≤ 0xFFFFFFF9 }
    ensures whole { IfOk result (λ v. IfSome v (λ ns. (s : Store) → IsTabled table.now s → s.width ≡ chain.width
        → IsChainOf s chain.first chain.size ns.items)) }
    ensures other { IfOk result (λ v. IfNone v ((s : Store) → IsTabled table.now s → s.width ≡ chain.width
        → (ns : List ℕ) → IsChainOf s chain.first chain.size ns → ⊥)) }
{
    if chain.size == 0 {
        return Ok(Some(Vec::new(alloc)));
    }
    chain_at(alloc, table, chain)
}

/// The entries of the mini FAT that lies in these sectors, of which so many count, for a mini stream of so many bytes.
fn mini_table(
    alloc: Global,
    file: &[u8],
    tables: &Tables<'_>,
    mini_fat: &[u32],
    count: u32,
    size: u32,
) -> Result<Vec<u32>, AllocError>
    requires tables { AreTablesOf file.now tables.now.fat tables.now.lists.items tables.now.entries.items }
    requires mini_fat { IsChainOf (sectors_of file.now (listed file.now)) (first_mini_fat file.now) (512 * count)
        mini_fat.now }
    ensures tabled { IfOk result (λ v. (stream : List ℕ)
        → IsTabled v.items (mini_sectors_of file.now (take count mini_fat.now) stream size)) }
    ensures few { IfOk result (λ v. length v.items ≤ 0xFFFFFFF9) }
{
    let used = &mini_fat[..count as usize];
    let bytes = tables.fat.join(alloc, used)?;
    let entries = (128 * count as usize).min((size as usize + 63) / 64);
    let minis = numbers(alloc, &bytes, entries)?;
    Ok(minis)
}

/// The parts of a file with this header and these tables. None where a chain of one of them isn't whole.
pub(crate) fn parts_of(
    alloc: Global,
    header: &Header,
    file: &[u8],
    tables: &Tables<'_>,
) -> Result<Option<Parts>, AllocError>
    requires same { header.now ≡ header_of file.now }
    requires tables { AreTablesOf file.now tables.now.fat tables.now.lists.items tables.now.entries.items }
    ensures there { IfOk result (λ v. IfSome v (ArePartsOf file.now)) }
    ensures none { IfOk result (λ v. IfNone v ((l : Layout) → IsLaidOut file.now l → ⊥)) }
{
    let chain = Chain {
        first: header.first_directory(),
        width: SECTOR,
        size: 0,
    };
    let found = chain_at(alloc, &tables.entries, chain)?;
    match found {
        Some(directory) => with_mini_fat(alloc, header, file, tables, &directory),
        None => Ok(None),
    }
}

/// The same where the directory lies in these sectors.
fn with_mini_fat(
    alloc: Global,
    header: &Header,
    file: &[u8],
    tables: &Tables<'_>,
    directory: &[u32],
) -> Result<Option<Parts>, AllocError>
    requires same { header.now ≡ header_of file.now }
    requires tables { AreTablesOf file.now tables.now.fat tables.now.lists.items tables.now.entries.items }
    requires directory { IsChain (sectors_of file.now (listed file.now)) (first_directory file.now) 0 directory.now }
    ensures there { IfOk result (λ v. IfSome v (ArePartsOf file.now)) }
    ensures none { IfOk result (λ v. IfNone v ((l : Layout) → IsLaidOut file.now l → ⊥)) }
{
    let count = header.mini_fat_count();
    let chain = Chain {
        first: header.first_mini_fat(),
        width: SECTOR,
        size: 512 * count as u64,
    };
    let found = chain_or_none(alloc, &tables.entries, chain)?;
    match found {
        Some(mini_fat) => with_mini_stream(alloc, file, tables, directory, &mini_fat, count),
        None => Ok(None),
    }
}

/// The same where the mini FAT lies in these sectors, of which so many count.
fn with_mini_stream(
    alloc: Global,
    file: &[u8],
    tables: &Tables<'_>,
    directory: &[u32],
    mini_fat: &[u32],
    count: u32,
) -> Result<Option<Parts>, AllocError>
    requires tables { AreTablesOf file.now tables.now.fat tables.now.lists.items tables.now.entries.items }
    requires directory { IsChain (sectors_of file.now (listed file.now)) (first_directory file.now) 0 directory.now }
    requires counted { count ≡ mini_fat_count file.now }
    requires mini_fat { IsChainOf (sectors_of file.now (listed file.now)) (first_mini_fat file.now) (512 * count)
        mini_fat.now }
    ensures there { IfOk result (λ v. IfSome v (ArePartsOf file.now)) }
    ensures none { IfOk result (λ v. IfNone v ((l : Layout) → IsLaidOut file.now l → ⊥)) }
{
    let bytes = tables.fat.join(alloc, directory)?;
    let (first, size) = root_of(&bytes);
    let chain = Chain {
        first,
        width: SECTOR,
        size: size as u64,
    };
    let minis = mini_table(alloc, file, tables, mini_fat, count, size)?;
    let found = chain_or_none(alloc, &tables.entries, chain)?;
    match found {
        Some(mini_stream) => {
            let mut own = all_of(alloc, &tables.lists, directory, mini_fat)?;
            own.extend_from_slice(&mini_stream)?;
            let table = Vec::from_slice(alloc, &tables.entries)?;
            Ok(Some(Parts {
                table,
                minis,
                own,
                directory: bytes,
            }))
        }
        None => Ok(None),
    }
}
