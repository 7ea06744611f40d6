//! What stands before the streams in a file: its header, its tables and its directory.

ghost use Rattle.cfb_header.specs.declared.header.TheConstants.{MOST_DIFAT_SECTORS};
ghost use Rattle.cfb_header.specs.Header.{header_bytes};
ghost use Rattle.std.specs.List.{range_with_len};
ghost use Rattle.std.specs.Prelude.{◌≡◌, ◌≤◌, ◌<◌, ◌+◌, ◌^◌, ◌++◌, ◌∷◌, [], IfOk, OnOk, min};
ghost use Rattle.cfb_layout.specs.Image.{difat_numbers, names, start};
ghost use Rattle.cfb_file.specs.declared.limit.TheConstants.{MANY, MOST_FAT_SECTORS};

use crate::counts::chain_start;
use crate::leads::Directory;
use crate::tables::{Tables, push_copies, push_range};
use cfb_chains::sector::FREE_SECTOR;
use cfb_file::limit::{MANY, MOST_FAT_SECTORS};
use cfb_header::header::{Header, LISTED, NAMED};
use std::alloc::{AllocError, Global};

/// What stands before the streams in a file: its header, and behind it the numbers of the FAT and the DIFAT, the
/// directory and the numbers of the mini FAT.
#[derive(Drop)]
pub struct Front {
    pub header: Vec<u8>,
    pub tables: Tables,
    pub difat: Vec<u32>,
    pub directory: Directory,
}

/// Adds the numbers in a DIFAT sector: the FAT sectors from one on and before another, as many as it names, and the
/// DIFAT sector that is next.
fn push_names(numbers: &mut Vec<u32>, first: u32, end: u32, next: u32) -> Result<(), AllocError>
    requires { first < 2 ^ 31 }
    ensures { OnOk result (numbers.new.items ≡ numbers.old.items ++ (names first end ++ next ∷ [])) }
{
    let count = end.saturating_sub(first).min(NAMED as u32);
    push_range(numbers, first, count)?;
    push_copies(numbers, NAMED as u32 - count, FREE_SECTOR)?;
    numbers.push(next)?;
    Ok(())
}

/// The numbers in so many DIFAT sectors, which stand behind the FAT's sectors and name those that the header has no
/// room for.
pub fn difat_table(alloc: Global, fat_count: u32, difat_count: u32) -> Result<Vec<u32>, AllocError>
    requires few { fat_count ≤ MOST_FAT_SECTORS }
    requires least { difat_count ≤ MOST_FAT_SECTORS }
    ensures { IfOk result (λ v. v.items ≡ difat_numbers difat_count fat_count LISTED fat_count) }
{
    let mut numbers = Vec::new(alloc);
    for k in 0..difat_count {
        let next = chain_start(fat_count + k + 1, difat_count - k - 1);
        let first = LISTED as u32 + NAMED as u32 * k;
        push_names(&mut numbers, first, fat_count, next)?;
    }
    Ok(numbers)
}

/// Adds the header of a file with so many sectors of the FAT, the DIFAT, the directory and the mini FAT, in this order.
pub fn push_header(
    alloc: Global,
    out: &mut Vec<u8>,
    fat_count: u32,
    difat_count: u32,
    directory_count: u32,
    mini_fat_count: u32,
) -> Result<(), AllocError>
    requires few { fat_count ≤ MOST_FAT_SECTORS }
    requires least { difat_count ≤ MOST_DIFAT_SECTORS }
    requires small { directory_count ≤ MANY }
    ensures { OnOk result (out.new.items ≡ out.old.items ++ header_bytes
        (record {
          fat_count = fat_count;
          fat = range_with_len 0 (min fat_count LISTED);
          first_difat = start fat_count difat_count;
          difat_count = difat_count;
          first_directory = fat_count + difat_count;
          first_mini_fat =
              start (fat_count + difat_count + directory_count) mini_fat_count;
          mini_fat_count = mini_fat_count;
        })) }
{
    let mut fat = Vec::new(alloc);
    push_range(&mut fat, 0, fat_count)?;
    let mut difat = Vec::new(alloc);
    push_range(&mut difat, fat_count, difat_count)?;
    let own = fat_count + difat_count;
    let first_mini_fat = chain_start(own + directory_count, mini_fat_count);
    match Header::new(&fat, &difat, own, first_mini_fat, mini_fat_count) {
        Ok(header) => out.extend_from_slice(&header.write())?,
        Err(_) => unreachable!(),
    }
    Ok(())
}
