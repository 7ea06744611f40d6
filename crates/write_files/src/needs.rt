//! The room that a tree needs in its file, counted in one walk.

ghost use Rattle.std.specs.Prelude.{◌≡◌, if◌then◌else◌, Err, IfErr, IfOk, Ok, OnOk, min, nat_lt};
ghost use Rattle.tree_storage.specs.Child.{Seen};
ghost use Rattle.write_files.specs.Walks.{Is};
ghost use Rattle.cfb_layout.specs.Directory.{entries_with};
ghost use Rattle.cfb_file.specs.Need.{entries, long_sectors, mini_sectors, pieces};
ghost use Rattle.cfb_file.specs.declared.limit.TheConstants.{CUTOFF, MANY};
ghost use Rattle.cfb_file.specs.Refusals.{writable};
ghost use Rattle.write_parts.specs.Counted.{AreEnough, IsCounted};
ghost use Rattle.write_parts.specs.Streams.{minis_with, sectors_with};

use crate::walks::{Branch, What};
use cfb_file::fault::WriteFault;
use cfb_file::limit::{MANY, MOST_FAT_SECTORS};
use cfb_file::need::fat_sectors;
use write_parts::counts::Counts;
use write_parts::streams::{is_short, mini_count, sector_count};

/// What a part of a tree needs, each sort of room counted up to the bound: entries, mini sectors and sectors of long
/// streams.
#[derive(Clone, Copy)]
pub(crate) struct Needs {
    pub(crate) entries: u32,
    pub(crate) minis: u32,
    pub(crate) longs: u32,
}

/// What a storage needs below its own entry.
#[cycle(count_needs)]
pub(crate) fn needs_below<B: Branch>(storage: B) -> Needs
    ensures entries { result.entries ≡ min MANY (entries (B.tree storage)) }
    ensures minis { result.minis ≡ min MANY (mini_sectors (B.tree storage)) }
    ensures longs { result.longs ≡ min MANY (long_sectors (B.tree storage)) }
{
    let mut entries: u32 = 0;
    let mut minis: u32 = 0;
    let mut longs: u32 = 0;
    let mut walk = storage.walk();
    while let Some(child) = B::next(&mut walk) {
        let needs = needs_with(child.what);
        entries = (entries + needs.entries).min(MANY);
        minis = (minis + needs.minis).min(MANY);
        longs = (longs + needs.longs).min(MANY);
    }
    Needs {
        entries,
        minis,
        longs,
    }
}

/// What a child needs with its own entry.
#[cycle(count_needs)]
pub(crate) fn needs_with<B: Branch>(child: What<B>) -> Needs
    ensures entries { (s : Seen) → Is B.tree child s → result.entries ≡ min MANY (entries_with s) }
    ensures minis { (s : Seen) → Is B.tree child s → result.minis ≡ min MANY (minis_with s) }
    ensures longs { (s : Seen) → Is B.tree child s → result.longs ≡ min MANY (sectors_with s) }
{
    match child {
        What::Stream(size) => needs_of_stream(size),
        What::Storage(inner) => {
            let below = needs_below(inner);
            Needs {
                entries: (1 + below.entries).min(MANY),
                minis: below.minis,
                longs: below.longs,
            }
        }
    }
}

/// What a stream of so many bytes needs.
fn needs_of_stream(len: usize) -> Needs
    ensures entries { result.entries ≡ 1 }
    ensures minis { result.minis ≡ (if nat_lt len CUTOFF then pieces 64 len else 0) }
    ensures longs { result.longs ≡ (if nat_lt len CUTOFF then 0 else min MANY (pieces 512 len)) }
{
    if is_short(len) {
        Needs {
            entries: 1,
            minis: mini_count(len) as u32,
            longs: 0,
        }
    } else {
        Needs {
            entries: 1,
            minis: 0,
            longs: sector_count(len).min(MANY as usize) as u32,
        }
    }
}

/// What a tree needs, each sort of room counted up to the bound.
fn survey<B: Branch>(root: B) -> Counts
    ensures { IsCounted result (B.tree root) }
{
    let needs = needs_below(root);
    let mut counts = Counts {
        fat: 0,
        entries: needs.entries,
        minis: needs.minis,
        longs: needs.longs,
    };
    counts.fat = fat_sectors(counts.data_sectors());
    counts
}

/// The counts of a tree, and the least number of FAT sectors that covers it.
///
/// Refused: `TooBig` where that is above the limit.
pub fn count<B: Branch>(root: B) -> Result<Counts, WriteFault>
    ensures refused { IfErr result (λ e. writable (B.tree root) ≡ Err e) }
    ensures allowed { OnOk result (writable (B.tree root) ≡ Ok tt) }
    ensures counted { IfOk result (λ counts. AreEnough counts (B.tree root)) }
{
    let counts = survey(root);
    if counts.fat > MOST_FAT_SECTORS {
        return Err(WriteFault::TooBig);
    }
    Ok(counts)
}
