//! How much of each part a file has.

ghost use Rattle.cfb_layout.specs.Image.{start};
ghost use Rattle.std.specs.Prelude.{◌≡◌};

use cfb_file::need::difat_sectors;
use cfb_header::header::END_OF_CHAIN;

/// What the counts of a tree say of its file: how many FAT sectors, entries below the root, mini sectors and sectors of
/// long streams it has.
#[derive(Clone, Copy)]
pub struct Counts {
    pub fat: u32,
    pub entries: u32,
    pub minis: u32,
    pub longs: u32,
}

impl Counts {
    ghost use Rattle.std.specs.Prelude.{◌≡◌, ◌≤◌, ◌*◌, ◌+◌};
    ghost use Rattle.cfb_layout.specs.Image.{behind_fat};
    ghost use Rattle.cfb_file.specs.Need.{difat_sectors as difat_needed, needed, pieces};
    ghost use Rattle.cfb_file.specs.declared.limit.TheConstants.{MANY};

    /// The sectors of the directory.
    pub fn directory_sectors(self) -> u32
        requires { self.entries ≤ MANY }
        ensures { result ≡ pieces 4 (1 + self.entries) }
    {
        (1 + self.entries).div_ceil(4)
    }

    /// The sectors of the mini FAT.
    pub fn mini_fat_sectors(self) -> u32
        requires { self.minis ≤ MANY }
        ensures { result ≡ pieces 128 self.minis }
    {
        self.minis.div_ceil(128)
    }

    /// The sectors of the mini stream.
    pub fn mini_stream_sectors(self) -> u32
        requires { self.minis ≤ MANY }
        ensures { result ≡ pieces 512 (64 * self.minis) }
    {
        (64 * self.minis).div_ceil(512)
    }

    /// All sectors but those of the FAT.
    pub fn data_sectors(self) -> u32
        requires few_entries { self.entries ≤ MANY }
        requires few_minis { self.minis ≤ MANY }
        requires few_sectors { self.longs ≤ MANY }
        ensures { result ≡ needed self.entries self.minis self.longs }
    {
        let tables = self.directory_sectors() + self.mini_fat_sectors();
        tables + self.mini_stream_sectors() + self.longs
    }

    /// The sectors of the DIFAT.
    pub fn difat_sectors(self) -> u32
        ensures value { result ≡ difat_needed self.fat }
        ensures few { result ≤ self.fat }
    {
        difat_sectors(self.fat)
    }

    /// The sectors of the FAT and the DIFAT.
    pub fn own_sectors(self) -> u32
        requires { self.fat ≤ MANY }
        ensures { result ≡ behind_fat self.fat }
    {
        self.fat + self.difat_sectors()
    }

    /// All sectors.
    pub fn sectors(self) -> u32
        requires few_fat { self.fat ≤ MANY }
        requires few_entries { self.entries ≤ MANY }
        requires few_minis { self.minis ≤ MANY }
        requires few_sectors { self.longs ≤ MANY }
        ensures { result ≡ behind_fat self.fat + needed self.entries self.minis self.longs }
    {
        self.own_sectors() + self.data_sectors()
    }

    /// The bytes of the file: its header and all sectors.
    pub fn file_len(self) -> usize
        requires few_fat { self.fat ≤ MANY }
        requires few_entries { self.entries ≤ MANY }
        requires few_minis { self.minis ≤ MANY }
        requires few_sectors { self.longs ≤ MANY }
        ensures { result ≡ 512 * (1 + (behind_fat self.fat + needed self.entries self.minis self.longs)) }
    {
        512 * (1 + self.sectors() as usize)
    }
}

/// Where a run of so many sectors starts, which is nowhere where it is empty.
pub fn chain_start(at: u32, count: u32) -> u32
    ensures { result ≡ start at count }
{
    if count == 0 { END_OF_CHAIN } else { at }
}
