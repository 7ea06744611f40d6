//! The numbers that bound a compound file (MS-CFB 2.2).

use cfb_header::header;

/// A stream of fewer bytes lies in the mini stream.
pub const CUTOFF: usize = 4096;

/// The most sectors that the FAT of a file has: as many as the header and eight DIFAT sectors can name.
pub const MOST_FAT_SECTORS: u32 = header::MOST_FAT_SECTORS;

/// More entries, mini sectors or sectors than any file has whose FAT is within the limit.
pub const MANY: u32 = 1024 * MOST_FAT_SECTORS;

/// The most bytes of such a file: its header, and a sector for each entry of its FAT.
pub const MOST_BYTES: u64 = 512 * (1 + 128 * MOST_FAT_SECTORS as u64);
