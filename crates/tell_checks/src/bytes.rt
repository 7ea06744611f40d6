//! The bytes of a file at which what is wrong stands.

ghost use Rattle.cfb_header.specs.Bytes.{u32_at};
ghost use Rattle.tell_entries.specs.Ways.{IsDirectoryOf, end_of};
ghost use Rattle.tell_checks.specs.Spots.{IsByteOf, IsByteOfChain, IsByteOfEntry, IsEntryAt, IsFirstOf, IsItemAt};
ghost use Rattle.tell_checks.specs.Spots.{IsNextMiniOf, IsNextOf, IsStreamLinkAt, IsWordAt};
ghost use Rattle.std.specs.Prelude.{◌*◌, ◌+◌, ◌≡◌, ◌≤◌, IfNone, IfOk, IfSome, Some, drop, length, take, true};

use crate::spot::Place;
use cfb_bytes::numbers::read_u32;
use cfb_header::fault::ChainFault;
use cfb_header::header::Header;
use read_chains::difat::fat_sectors;
use read_chains::fat::Fat;
use read_chains::image::Image;
use std::alloc::{AllocError, Global};
use tell_chains::place::StreamPlace;
use tell_entries::directory::{Directory, read_directory};
use tell_entries::place::EntryPlace;
use tell_entries::ways::end_of;
use tell_faults::place::{FaultPlace, Link};

/// The bytes of a sector.
const SECTOR: usize = 512;

/// The fields of the header that tell where the directory and the mini FAT begin, and that of an entry that tells where
/// its stream begins.
const FIRST_DIRECTORY: usize = 48;

const FIRST_MINI_FAT: usize = 60;

const FIRST: usize = 116;

/// The bytes of a number of a table, and of an entry of the directory.
const NUMBER: usize = 4;

const ENTRY: usize = 128;

/// The byte at which an item of a table begins that lies in these sectors, each item of so many bytes. None where the
/// table hasn't so many.
fn byte_in(sectors: &[u32], width: usize, n: u32) -> Option<usize>
    ensures { IfSome result (IsItemAt sectors.now width n) }
{
    let per_sector = SECTOR.checked_div(width)?;
    let at = (n as usize).checked_div(per_sector)?;
    let sector = *sectors.get(at)? as usize;
    let inside = (n as usize).checked_rem(per_sector)?;
    Some(SECTOR + SECTOR * sector + width.checked_mul(inside)?)
}

/// The byte of the entry of a sector in the FAT.
fn byte_in_fat(alloc: Global, file: &[u8], n: u32) -> Result<Option<usize>, AllocError>
    ensures { IfOk result (λ b. IfSome b (IsNextOf file.now n)) }
{
    let Ok(header) = Header::read(file) else {
        return Ok(None);
    };
    let own = fat_sectors(alloc, &header, &Image::Whole(file))?;
    Ok(byte_in(&own.fat, NUMBER, n))
}

/// The byte of the entry of a mini sector in the mini FAT.
fn byte_in_mini_fat(alloc: Global, file: &[u8], n: u32) -> Result<Option<usize>, AllocError>
    ensures { IfOk result (λ b. IfSome b (IsNextMiniOf file.now n)) }
{
    let Ok(header) = Header::read(file) else {
        return Ok(None);
    };
    let mut fat = match Fat::load(alloc, &header, Image::Whole(file)) {
        Ok(fat) => fat,
        Err(ChainFault::NoMemory) => return Err(AllocError),
        Err(_) => return Ok(None),
    };
    let sectors = match fat.chain(alloc, header.first_mini_fat()) {
        Ok(sectors) => sectors,
        Err(ChainFault::NoMemory) => return Err(AllocError),
        Err(_) => return Ok(None),
    };
    Ok(byte_in(&sectors, NUMBER, n))
}

/// The byte of the first number of the stream of an entry.
fn byte_of_first(alloc: Global, file: &[u8], id: u32) -> Result<Option<usize>, AllocError>
    ensures { IfOk result (λ b. IfSome b (IsFirstOf file.now id)) }
{
    let found = read_directory(alloc, file)?;
    let Some(directory) = found else {
        return Ok(None);
    };
    match byte_in(&directory.sectors, ENTRY, id) {
        Some(at) if at < 0x1_0000_0000 => Ok(Some(at + FIRST)),
        _ => Ok(None),
    }
}

/// The byte of the number of a link of a chain of sectors, of which the first one stands at another.
fn byte_of_link(
    alloc: Global,
    file: &[u8],
    link: Link,
    first: Option<usize>,
) -> Result<Option<usize>, AllocError>
    ensures next { IfSome link.from (λ n. IfOk result (λ b. IfSome b (IsNextOf file.now n))) }
    ensures first { IfNone link.from (result ≡ Ok first) }
{
    match link.from {
        Some(from) => byte_in_fat(alloc, file, from),
        None => Ok(first),
    }
}

/// The byte of the number of a link of a stream's chain.
fn byte_of_stream_link(
    alloc: Global,
    file: &[u8],
    stream: &StreamPlace,
) -> Result<Option<usize>, AllocError>
    ensures { IfOk result
        (λ b. IfSome b (IsStreamLinkAt file.now stream.now.is_mini
        (IsFirstOf file.now (end_of stream.now.way.items)) stream.now.link.from)) }
{
    match stream.link.from {
        Some(from) if stream.is_mini => byte_in_mini_fat(alloc, file, from),
        Some(from) => byte_in_fat(alloc, file, from),
        None => byte_of_first(alloc, file, end_of(&stream.way)),
    }
}

/// Whether a number stands at a byte.
fn has_word(file: &[u8], at: usize, n: u32) -> bool
    ensures { result ≡ true → IsWordAt file.now at n }
{
    if file.len() < NUMBER || at > file.len() - NUMBER {
        return false;
    }
    read_u32(file, at) == n
}

/// A byte, where a number stands there.
fn word_at(file: &[u8], at: Option<usize>, n: u32) -> Option<u32>
    ensures word { IfSome result (λ byte. IsWordAt file.now byte n) }
    ensures at { IfSome result (λ byte. at ≡ Some byte) }
{
    let at = at?;
    if at < 0x1_0000_0000 && has_word(file, at, n) {
        return Some(at as u32);
    }
    None
}

/// The 128 bytes from a place on.
fn entry_bytes<'a>(bytes: &'a [u8], at: usize) -> Option<&'a [u8]>
    ensures { IfSome result (λ part. (at + 128 ≤ length bytes.now) × (part.now ≡ take 128 (drop at bytes.now))) }
{
    let rest = bytes.get(at..)?;
    let part = rest.get(..ENTRY)?;
    Some(part)
}

/// Whether the same 128 bytes stand at two places.
fn are_same(bytes: &[u8], at: usize, others: &[u8], other: usize) -> bool
    ensures { result ≡ true → (at + 128 ≤ length bytes.now)
        × (take 128 (drop at bytes.now) ≡ take 128 (drop other others.now)) }
{
    let Some(one) = entry_bytes(bytes, at) else {
        return false;
    };
    let Some(two) = entry_bytes(others, other) else {
        return false;
    };
    one == two
}

/// The byte at which an entry of the directory begins.
fn entry_at(alloc: Global, file: &[u8], id: u32) -> Result<Option<u32>, AllocError>
    ensures { IfOk result (λ b. IfSome b (λ byte. IsEntryAt file.now byte id)) }
{
    let found = read_directory(alloc, file)?;
    match found {
        Some(directory) => Ok(entry_in(file, &directory, id)),
        None => Ok(None),
    }
}

/// The same of an entry of this directory.
fn entry_in(file: &[u8], directory: &Directory, id: u32) -> Option<u32>
    requires directory { IsDirectoryOf file.now directory.now }
    ensures { IfSome result (λ byte. IsEntryAt file.now byte id) }
{
    let at = byte_in(&directory.sectors, ENTRY, id)?;
    if at < 0x1_0000_0000 && are_same(file, at, &directory.bytes, ENTRY * id as usize) {
        return Some(at as u32);
    }
    None
}

/// The byte of a place of a chain of the system's own parts.
fn byte_of_chain(alloc: Global, file: &[u8], place: FaultPlace) -> Result<Option<u32>, AllocError>
    ensures { IfOk result (λ b. IfSome b (IsByteOfChain file.now place)) }
{
    match place {
        FaultPlace::Header => Ok(None),
        FaultPlace::Fat => Ok(None),
        FaultPlace::Directory(link) => {
            let at = byte_of_link(alloc, file, link, Some(FIRST_DIRECTORY))?;
            Ok(word_at(file, at, link.to))
        }
        FaultPlace::MiniFat(link) => {
            let at = byte_of_link(alloc, file, link, Some(FIRST_MINI_FAT))?;
            Ok(word_at(file, at, link.to))
        }
        FaultPlace::MiniStream(link) => {
            let first = byte_of_first(alloc, file, 0)?;
            let at = byte_of_link(alloc, file, link, first)?;
            Ok(word_at(file, at, link.to))
        }
    }
}

/// The byte of a place of the directory.
fn byte_of_entry(alloc: Global, file: &[u8], place: &EntryPlace) -> Result<Option<u32>, AllocError>
    ensures { IfOk result (λ b. IfSome b (IsByteOfEntry file.now place.now)) }
{
    match place {
        EntryPlace::Nowhere => Ok(None),
        EntryPlace::Entry(way) => entry_at(alloc, file, end_of(way)),
        EntryPlace::Twins(_, _, other) => entry_at(alloc, file, *other),
    }
}

/// The byte of a place: where the number stands that a chain goes wrong by, or where the entry begins. None for the
/// header and the lists of the FAT.
pub(crate) fn byte_of(alloc: Global, file: &[u8], place: &Place) -> Result<Option<u32>, AllocError>
    ensures { IfOk result (λ b. IfSome b (IsByteOf file.now place.now)) }
{
    match place {
        Place::Chain(chain) => byte_of_chain(alloc, file, *chain),
        Place::Stream(stream) => {
            let at = byte_of_stream_link(alloc, file, stream)?;
            Ok(word_at(file, at, stream.link.to))
        }
        Place::Entry(entry) => byte_of_entry(alloc, file, entry),
    }
}
