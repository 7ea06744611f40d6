//! A file in the sectors of an older one.

use crate::bytes::{MINI, SECTOR, joined, piece, put};
use crate::directory::{directory_anew, set_firsts};
use crate::freed::Freed;
use crate::older::older_of;
use crate::parts::{
    DIFAT, DIRECTORY, FAT, MINI_FAT, MINI_STREAM, Part, fill_all, sectors_of, set_count,
};
use crate::streams::push_streams;
use crate::tables::{at_or_end, difat_of, fat_count, fat_of, table_of};
use crate::writing::Laid;
use cfb_file::need::difat_sectors;
use cfb_header::header::Header;
use read_outlines::outline::Outline;
use std::alloc::{AllocError, Global};
use tree_storage::storage::Storage;

/// The mini stream of so many mini sectors, in whole sectors. What no stream lies in is as it was, or zero.
fn mini_stream_of(
    alloc: Global,
    old: &[u8],
    parts: &[Part<'_>],
    minis: usize,
    freed: Freed,
) -> Result<Vec<u8>, AllocError> {
    let mut stream = match freed {
        Freed::Kept => joined(alloc, old, sectors_of(parts, MINI_STREAM))?,
        Freed::Zeroed => Vec::new(alloc),
    };
    stream.resize(SECTOR.saturating_mul(minis.div_ceil(8)), 0)?;
    for part in parts {
        if part.short {
            for k in 0..part.sectors.len() {
                let bytes = piece(part.bytes, MINI, k);
                put(&mut stream, MINI, part.sectors[k] as usize, bytes);
            }
        }
    }
    Ok(stream)
}

/// Gives the parts their sectors, where the directory has so many and the mini stream so many mini sectors, and tells
/// how many there are up to the last one. None where that passes the limit.
fn place(
    alloc: Global,
    parts: &mut [Part<'_>],
    directory: usize,
    minis: usize,
) -> Result<Option<usize>, AllocError> {
    set_count(parts, DIRECTORY, directory);
    set_count(parts, MINI_FAT, minis.div_ceil(128));
    set_count(parts, MINI_STREAM, minis.div_ceil(8));
    let Some(fat) = fat_count(parts) else {
        return Ok(None);
    };
    set_count(parts, FAT, fat as usize);
    set_count(parts, DIFAT, difat_sectors(fat) as usize);
    Ok(Some(fill_all(alloc, parts, false)?))
}

/// The header of a file whose parts have their sectors. None for more sectors of the FAT or the DIFAT than a file has.
fn header_of(parts: &[Part<'_>]) -> Option<[u8; 512]> {
    let mini_fat = sectors_of(parts, MINI_FAT);
    match Header::new(
        sectors_of(parts, FAT),
        sectors_of(parts, DIFAT),
        at_or_end(sectors_of(parts, DIRECTORY), 0),
        at_or_end(mini_fat, 0),
        mini_fat.len().min(u32::MAX as usize) as u32,
    ) {
        Ok(header) => Some(header.write()),
        Err(_) => None,
    }
}

/// The bytes of the system's parts of a file whose parts have their sectors, and which has this directory and mini
/// stream.
fn system_of(
    alloc: Global,
    parts: &[Part<'_>],
    directory: Vec<u8>,
    mini_stream: Vec<u8>,
) -> Result<Vec<Vec<u8>>, AllocError> {
    let mut own = Vec::new(alloc);
    own.push(fat_of(alloc, parts)?)?;
    own.push(difat_of(alloc, parts)?)?;
    own.push(directory)?;
    own.push(table_of(alloc, parts, true, sectors_of(parts, MINI_FAT).len())?)?;
    own.push(mini_stream)?;
    Ok(own)
}

/// The file of a tree with this root in the sectors of an older one, which has this outline. A stream whose number of
/// sectors and whose table stay has its sectors, and so has a mini stream's; the directory, the mini FAT and the mini
/// stream keep the front of theirs; each new one is the least free one. What is freed keeps its bytes, or all that
/// nothing lies in becomes zeros. None where that would pass the limit.
///
/// Nothing is promised of what it denotes: whoever takes it reads it again.
pub fn place_over<'a>(
    alloc: Global,
    old: &[u8],
    outline: &Outline,
    root: &'a Storage,
    freed: Freed,
) -> Result<Option<Laid<'a>>, AllocError> {
    let Ok(header) = Header::read(old) else {
        return Ok(None);
    };
    let Some(mut directory) = directory_anew(alloc, root)? else {
        return Ok(None);
    };
    let mut older = older_of(alloc, &header, old)?;
    push_streams(alloc, &mut older, root, &outline.parts)?;
    let mut parts = older.parts;
    let minis = fill_all(alloc, &mut parts, true)?;
    let mini_stream = mini_stream_of(alloc, old, &parts, minis, freed)?;
    let Some(count) = place(alloc, &mut parts, directory.len() / SECTOR, minis)? else {
        return Ok(None);
    };
    let Some(header) = header_of(&parts) else {
        return Ok(None);
    };
    set_firsts(&mut directory, &parts, minis);
    let own = system_of(alloc, &parts, directory, mini_stream)?;
    Ok(Some(Laid {
        count,
        parts,
        header,
        own,
        freed,
        zeros: [0; 512],
    }))
}
