//! The header of a compound file, its first 512 bytes (MS-CFB 2.2).

ghost use Rattle.cfb_header.specs.Header.{END_OF_CHAIN as END, FitsHeader, HeaderValue, LISTED, MOST_DIFAT_SECTORS};
ghost use Rattle.cfb_header.specs.Header.{MOST_FAT_SECTORS, header_bytes, header_read, IsHeader};
ghost use Rattle.cfb_header.specs.declared.fault.ChainFault.TheVariants.{TooBig};
ghost use Rattle.cfb_header.specs.Bytes.{u32_at};
ghost use Rattle.std.specs.Int.{to_le_bytes, w32};
ghost use Rattle.std.specs.List.{flat_map};
ghost use Rattle.std.specs.Prelude.{◌*◌, ◌+◌, ◌++◌, ◌-◌, ◌<◌, ◌≡◌, ◌≤◌, ◌↔◌, ◌⊎◌, IfErr, IfOk, IsOk, List, length, min};
ghost use Rattle.std.specs.Prelude.{replicate, slice_index, slice_index_or, take, ℕ};

use crate::bytes::{write_u16, write_u32};
use crate::fault::ChainFault;
use byteorder::{ByteOrder, LittleEndian};
use cfb_bytes::numbers::{read_u16, read_u32};
use std::marker::Model;

/// The value that ends a chain.
pub const END_OF_CHAIN: u32 = 0xffff_fffe;

/// How many FAT sectors the header can name.
pub const LISTED: usize = 109;

/// How many a DIFAT sector names (MS-CFB 2.5).
pub const NAMED: usize = 127;

/// The most DIFAT sectors of a file.
pub const MOST_DIFAT_SECTORS: u32 = 8;

/// The most FAT sectors of a file: those that the header names, and those that so many DIFAT sectors do.
pub const MOST_FAT_SECTORS: u32 = 1125;

/// The length from which a stream lies in sectors, and not in mini sectors.
const CUTOFF: u32 = 4096;

const SIGNATURE: [u8; 8] = [0xd0, 0xcf, 0x11, 0xe0, 0xa1, 0xb1, 0x1a, 0xe1];

/// The numbers of the header's list.
fn read_listed(bytes: &[u8]) -> [u32; LISTED]
    requires { 512 ≤ length bytes.now }
    ensures { (k : ℕ) → k < LISTED → slice_index result k ≡ u32_at bytes.now (76 + 4 * k) }
{
    let mut fat = [0; LISTED];
    for k in 0..LISTED {
        fat[k] = read_u32(bytes, 76 + 4 * k);
    }
    fat
}

/// The first sectors of a list, as many as the header has room for, and zeros behind them.
fn first_listed(fat: &[u32]) -> [u32; LISTED]
    ensures { take (length fat.now) result ≡ take LISTED fat.now }
{
    let count = fat.len().min(LISTED);
    let mut listed = [0; LISTED];
    listed[..count].copy_from_slice(&fat[..count]);
    listed
}

/// The first sector of a list, or the value that ends a chain where there is none.
fn first_of(sectors: &[u32]) -> u32
    ensures { result ≡ slice_index_or sectors.now 0 END }
{
    match sectors.first() {
        Some(first) => *first,
        None => END_OF_CHAIN,
    }
}

/// Writes the FAT's sectors, behind which the entries are free.
fn write_listed(entries: &mut [u8], fat: &[u32])
    requires { 4 * length fat.now ≤ length entries.old }
    ensures { entries.new ≡ flat_map (to_le_bytes w32) fat.now
        ++ replicate (length entries.old - 4 * length fat.now) 255 }
{
    entries.fill(0xff);
    LittleEndian::write_u32_into(fat, &mut entries[..4 * fat.len()]);
}

/// What a header says: how many sectors the FAT has and the first of them, the DIFAT's first one and their number, the
/// directory's first one, the mini FAT's first one and their number.
#[derive(Drop)]
pub struct Header {
    fat_count: u32,
    fat: [u32; LISTED],
    first_difat: u32,
    difat_count: u32,
    first_directory: u32,
    first_mini_fat: u32,
    mini_fat_count: u32,
}

impl Model for Header {
    ghost use Rattle.std.specs.Prelude.{take, ◌≤◌};
    ghost use Rattle.cfb_header.specs.Header.{HeaderValue, MOST_DIFAT_SECTORS, MOST_FAT_SECTORS};

    ghost Value = { HeaderValue };

    ghost view = { λ h. record {
      fat_count = h.fat_count;
      fat = take h.fat_count h.fat;
      first_difat = h.first_difat;
      difat_count = h.difat_count;
      first_directory = h.first_directory;
      first_mini_fat = h.first_mini_fat;
      mini_fat_count = h.mini_fat_count;
    } };

    ghost invariant = { λ h. (h.fat_count ≤ MOST_FAT_SECTORS) × (h.difat_count ≤ MOST_DIFAT_SECTORS) };
}

impl Header {
    /// A header of a FAT in these sectors and a DIFAT in those, of which it names the first ones, the directory's first
    /// sector, the mini FAT's first one and their number.
    ///
    /// Refused: `TooBig` for more than 1,125 FAT sectors or 8 DIFAT sectors.
    pub fn new(
        fat: &[u32],
        difat: &[u32],
        first_directory: u32,
        first_mini_fat: u32,
        mini_fat_count: u32,
    ) -> Result<Header, ChainFault>
        ensures made { IfOk result (λ h. h ≡ record {
          fat_count = length fat.now;
          fat = take LISTED fat.now;
          first_difat = slice_index_or difat.now 0 END;
          difat_count = length difat.now;
          first_directory = first_directory;
          first_mini_fat = first_mini_fat;
          mini_fat_count = mini_fat_count;
        }) }
        ensures refused { IfErr result (λ e. (e ≡ TooBig)
            × ((MOST_FAT_SECTORS < length fat.now) ⊎ (MOST_DIFAT_SECTORS < length difat.now))) }
    {
        if fat.len() > MOST_FAT_SECTORS as usize {
            return Err(ChainFault::TooBig);
        }
        if difat.len() > MOST_DIFAT_SECTORS as usize {
            return Err(ChainFault::TooBig);
        }
        Ok(Header {
            fat_count: fat.len() as u32,
            fat: first_listed(fat),
            first_difat: first_of(difat),
            difat_count: difat.len() as u32,
            first_directory,
            first_mini_fat,
            mini_fat_count,
        })
    }

    /// The header of a file, from its first 512 bytes. The fields that MS-CFB 2.2 leaves to the writer are not looked
    /// at.
    ///
    /// Refused, in this order: `Truncated` for fewer than 512 bytes, `BadSignature` for other first eight bytes,
    /// `Unsupported` with the field's offset where the major version (26) isn't 3, the byte order (28) isn't 0xFFFE,
    /// the sector shift (30) isn't 9, the mini sector shift (32) isn't 6 or the cutoff (56) isn't 4096, `TooBig` for
    /// more than 1,125 FAT sectors or 8 DIFAT sectors.
    pub fn read(bytes: &[u8]) -> Result<Header, ChainFault>
        ensures read { result ≡ header_read bytes.now }
        ensures whole { IsOk result ↔ IsHeader bytes.now }
    {
        if bytes.len() < 512 {
            return Err(ChainFault::Truncated);
        }
        if !bytes.starts_with(&SIGNATURE) {
            return Err(ChainFault::BadSignature);
        }
        if read_u16(bytes, 26) != 3 {
            return Err(ChainFault::Unsupported(26));
        }
        if read_u16(bytes, 28) != 0xfffe {
            return Err(ChainFault::Unsupported(28));
        }
        if read_u16(bytes, 30) != 9 {
            return Err(ChainFault::Unsupported(30));
        }
        if read_u16(bytes, 32) != 6 {
            return Err(ChainFault::Unsupported(32));
        }
        if read_u32(bytes, 56) != CUTOFF {
            return Err(ChainFault::Unsupported(56));
        }
        let fat_count = read_u32(bytes, 44);
        if fat_count > MOST_FAT_SECTORS {
            return Err(ChainFault::TooBig);
        }
        let difat_count = read_u32(bytes, 72);
        if difat_count > MOST_DIFAT_SECTORS {
            return Err(ChainFault::TooBig);
        }
        Ok(Header {
            fat_count,
            fat: read_listed(bytes),
            first_difat: read_u32(bytes, 68),
            difat_count,
            first_directory: read_u32(bytes, 48),
            first_mini_fat: read_u32(bytes, 60),
            mini_fat_count: read_u32(bytes, 64),
        })
    }

    /// The bytes of the header: no class id, minor version 0x3E, no transactions, and unused entries of the list
    /// free.
    pub fn write(&self) -> [u8; 512]
        ensures { result ≡ header_bytes self.now }
    {
        let mut bytes = [0; 512];
        bytes[..8].copy_from_slice(&SIGNATURE);
        write_u16(&mut bytes, 24, 0x3e);
        write_u16(&mut bytes, 26, 3);
        write_u16(&mut bytes, 28, 0xfffe);
        write_u16(&mut bytes, 30, 9);
        write_u16(&mut bytes, 32, 6);
        write_u32(&mut bytes, 44, self.fat_count);
        write_u32(&mut bytes, 48, self.first_directory);
        write_u32(&mut bytes, 56, CUTOFF);
        write_u32(&mut bytes, 60, self.first_mini_fat);
        write_u32(&mut bytes, 64, self.mini_fat_count);
        write_u32(&mut bytes, 68, self.first_difat);
        write_u32(&mut bytes, 72, self.difat_count);
        write_listed(&mut bytes[76..], self.fat());
        bytes
    }

    /// The sectors of the FAT that the header names, in order.
    pub fn fat(&self) -> &[u32]
        ensures { result.now ≡ self.now.fat }
    {
        &self.fat[..(self.fat_count as usize).min(LISTED)]
    }

    /// How many sectors the FAT has.
    pub fn fat_count(&self) -> u32
        ensures count { result ≡ self.now.fat_count }
        ensures few { result ≤ MOST_FAT_SECTORS }
        ensures first { length self.now.fat ≤ result }
    {
        self.fat_count
    }

    /// The first sector of the DIFAT, which means nothing where their number is 0.
    pub fn first_difat(&self) -> u32
        ensures { result ≡ self.now.first_difat }
    {
        self.first_difat
    }

    /// The number of sectors of the DIFAT.
    pub fn difat_count(&self) -> u32
        ensures count { result ≡ self.now.difat_count }
        ensures few { result ≤ MOST_DIFAT_SECTORS }
    {
        self.difat_count
    }

    /// The first sector of the directory.
    pub fn first_directory(&self) -> u32
        ensures { result ≡ self.now.first_directory }
    {
        self.first_directory
    }

    /// The first sector of the mini FAT, which means nothing where their number is 0.
    pub fn first_mini_fat(&self) -> u32
        ensures { result ≡ self.now.first_mini_fat }
    {
        self.first_mini_fat
    }

    /// The number of sectors of the mini FAT.
    pub fn mini_fat_count(&self) -> u32
        ensures { result ≡ self.now.mini_fat_count }
    {
        self.mini_fat_count
    }
}

/// What was written is read again, whatever bytes follow.
pub fn written_is_read()
    ensures whole { (h : HeaderValue) → (rest : List ℕ) → FitsHeader h → IsHeader (header_bytes h ++ rest) }
    ensures read { (h : HeaderValue) → (rest : List ℕ) → FitsHeader h → header_read (header_bytes h ++ rest) ≡ Ok h }
{}
