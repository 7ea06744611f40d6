//! What a crash may leave of a disk in memory, by the list of its calls. These functions have no contracts, so that the
//! tests stay quick to prove.

use std::alloc::{AllocError, Global};
use store_memory::areas::Call;
use store_memory::memory_disk::MemoryDisk;
use store_model::area::Area;

/// What a crash makes of the calls that no sync has followed.
#[derive(Clone, Copy, PartialEq, Eq)]
pub enum Pending {
    /// They are done.
    Kept,
    /// They are not done.
    Lost,
    /// What was to be written is zero, and no cut is done.
    Zeroed,
    /// Every other byte that was to be written is another one, and no cut is done.
    Torn,
}

/// All of them.
pub const PENDING: [Pending; 4] = [Pending::Kept, Pending::Lost, Pending::Zeroed, Pending::Torn];

/// What a crash leaves of an area after the first so many calls of a disk.
pub fn left(
    alloc: Global,
    disk: &MemoryDisk,
    calls: usize,
    area: Area,
    pending: Pending,
) -> Result<Vec<u8>, AllocError> {
    let mut bytes = disk.first().bytes(area).to_vec(alloc)?;
    let synced = last_sync(disk, calls, area);
    let mut done = 0usize;
    for call in disk.calls().iter().take(calls) {
        let how = if done < synced {
            Pending::Kept
        } else {
            pending
        };
        carry_out(&mut bytes, call, area, how)?;
        done = done.saturating_add(1);
    }
    Ok(bytes)
}

/// The disk that a crash leaves after the first so many calls of another. A refusal is one of memory.
pub fn crashed(
    alloc: Global,
    from: &MemoryDisk,
    calls: usize,
    document: Pending,
    journal: Pending,
) -> Result<MemoryDisk, AllocError> {
    let document = left(alloc, from, calls, Area::Document, document)?;
    let journal = left(alloc, from, calls, Area::Journal, journal)?;
    MemoryDisk::new(alloc, document, journal)
}

/// How many of the first so many calls stand up to the last sync of an area.
fn last_sync(disk: &MemoryDisk, calls: usize, area: Area) -> usize {
    let mut done = 0usize;
    let mut synced = 0usize;
    for call in disk.calls().iter().take(calls) {
        done = done.saturating_add(1);
        if let Call::Sync(of) = call {
            if *of == area {
                synced = done;
            }
        }
    }
    synced
}

fn carry_out(bytes: &mut Vec<u8>, call: &Call, area: Area, how: Pending) -> Result<(), AllocError> {
    match call {
        Call::Write(of, at, new) => {
            if *of == area {
                write(bytes, *at as usize, new, how)?;
            }
        }
        Call::Cut(of, size) => {
            if *of == area && how == Pending::Kept {
                bytes.truncate(*size as usize);
            }
        }
        Call::Sync(_) => {}
    }
    Ok(())
}

fn write(bytes: &mut Vec<u8>, at: usize, new: &[u8], how: Pending) -> Result<(), AllocError> {
    let mut index = at;
    for byte in new {
        match how {
            Pending::Kept => put(bytes, index, *byte)?,
            Pending::Lost => {}
            Pending::Zeroed => put(bytes, index, 0)?,
            Pending::Torn => put(bytes, index, if index % 2 == 0 { *byte } else { 0xa5 })?,
        }
        index = index.saturating_add(1);
    }
    Ok(())
}

fn put(bytes: &mut Vec<u8>, index: usize, byte: u8) -> Result<(), AllocError> {
    if index < bytes.len() {
        bytes[index] = byte;
    } else {
        bytes.push(byte)?;
    }
    Ok(())
}
