//! Values of sectors that stand for no sector (MS-CFB 2.1).

/// The value of a sector that isn't used.
pub const FREE_SECTOR: u32 = 0xffff_ffff;
