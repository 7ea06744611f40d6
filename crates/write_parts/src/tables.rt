//! The FAT and the mini FAT of a file.

ghost use Rattle.cfb_layout.specs.Image.{run};
ghost use Rattle.cfb_file.specs.declared.limit.TheConstants.{MANY, MOST_FAT_SECTORS};
ghost use Rattle.write_parts.specs.Filled.{filled, started};
ghost use Rattle.std.specs.List.{range_with_len};
ghost use Rattle.std.specs.Prelude.{◌≡◌, ◌≤◌, ◌<◌, ◌+◌, ◌*◌, ◌^◌, ◌++◌, [], IfOk, OnOk, replicate};
ghost use Rattle.std.specs.Vec.{vec_len};

use crate::counts::Counts;
use cfb_chains::sector::FREE_SECTOR;
use cfb_file::limit::{MANY, MOST_FAT_SECTORS};
use cfb_header::header::END_OF_CHAIN;
use std::alloc::{AllocError, Global};

/// The value of a sector that holds a part of the FAT.
const FAT_SECTOR: u32 = 0xffff_fffd;

/// The value of a sector that holds a part of the DIFAT.
const DIFAT_SECTOR: u32 = 0xffff_fffc;

/// Adds equal numbers.
pub fn push_copies(numbers: &mut Vec<u32>, count: u32, number: u32) -> Result<(), AllocError>
    ensures { OnOk result (numbers.new.items ≡ numbers.old.items ++ replicate count number) }
{
    let len = numbers.len() + count as usize;
    numbers.resize(len, number)?;
    Ok(())
}

/// Adds consecutive numbers.
pub fn push_range(numbers: &mut Vec<u32>, at: u32, count: u32) -> Result<(), AllocError>
    requires { at + count < 2 ^ 32 }
    ensures { OnOk result (numbers.new.items ≡ numbers.old.items ++ range_with_len at count) }
{
    for n in at..at + count {
        numbers.push(n)?;
    }
    Ok(())
}

/// Adds the entries of a run of sectors to a table: each names the next, and the last ends the chain.
pub fn push_run(table: &mut Vec<u32>, at: u32, count: u32) -> Result<(), AllocError>
    requires { at + count < 2 ^ 32 }
    ensures { OnOk result (table.new.items ≡ table.old.items ++ run at count) }
{
    if count > 0 {
        push_range(table, at + 1, count - 1)?;
        table.push(END_OF_CHAIN)?;
    }
    Ok(())
}

/// Fills a table up to so many sectors with free entries.
pub fn fill_table(table: &mut Vec<u32>, sectors: u32) -> Result<(), AllocError>
    requires few { sectors ≤ MANY }
    requires fits { vec_len table.old ≤ 128 * sectors }
    ensures { OnOk result (table.new.items ≡ filled sectors table.old.items) }
{
    let free = 128 * sectors - table.len() as u32;
    push_copies(table, free, FREE_SECTOR)?;
    Ok(())
}

/// The numbers of the FAT and those of the mini FAT.
#[derive(Drop)]
pub struct Tables {
    pub fat: Vec<u32>,
    pub minis: Vec<u32>,
}

/// The tables of a file with these counts before any stream is in them. The FAT has its own sectors, those of the
/// DIFAT, and behind them the runs of the directory, the mini FAT and the mini stream.
pub fn tables_for(alloc: Global, counts: Counts) -> Result<Tables, AllocError>
    requires few_sectors { counts.fat ≤ MOST_FAT_SECTORS }
    requires few_entries { counts.entries + 1 < MANY }
    requires few_minis { counts.minis < MANY }
    ensures fat { IfOk result (λ tables. tables.fat.items ≡ started counts.fat counts.entries counts.minis) }
    ensures minis { IfOk result (λ tables. tables.minis.items ≡ []) }
{
    let own = counts.own_sectors();
    let directory = counts.directory_sectors();
    let mini_fat = counts.mini_fat_sectors();
    let mini_stream = counts.mini_stream_sectors();
    let mut fat = Vec::with_capacity(alloc, 128 * counts.fat as usize)?;
    push_copies(&mut fat, counts.fat, FAT_SECTOR)?;
    push_copies(&mut fat, counts.difat_sectors(), DIFAT_SECTOR)?;
    push_run(&mut fat, own, directory)?;
    push_run(&mut fat, own + directory, mini_fat)?;
    push_run(&mut fat, own + directory + mini_fat, mini_stream)?;
    let minis = Vec::with_capacity(alloc, 128 * mini_fat as usize)?;
    Ok(Tables { fat, minis })
}
