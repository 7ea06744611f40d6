//! The parts of a file: the system's, and its streams.

use crate::free::Sectors;
use std::alloc::{AllocError, Global};

/// Where the system's parts stand among those of a file. The streams stand behind them, in the order of their entries.
pub(crate) const FAT: usize = 0;

pub(crate) const DIFAT: usize = 1;

pub(crate) const DIRECTORY: usize = 2;

pub(crate) const MINI_FAT: usize = 3;

pub(crate) const MINI_STREAM: usize = 4;

pub(crate) const STREAMS: usize = 5;

/// A part of a file.
#[derive(Drop)]
pub(crate) struct Part<'a> {
    /// The bytes of a stream.
    pub bytes: &'a [u8],
    /// Whether it lies in mini sectors.
    pub short: bool,
    /// How many sectors, or mini sectors, it is to have.
    pub count: usize,
    /// Those that it has.
    pub sectors: Vec<u32>,
}

/// The sectors of one of the parts.
pub(crate) fn sectors_of<'p>(parts: &'p [Part<'_>], at: usize) -> &'p [u32] {
    match parts.get(at) {
        Some(part) => &part.sectors,
        None => &[],
    }
}

/// Sets how many sectors one of the parts is to have, which keeps the front of its own.
pub(crate) fn set_count(parts: &mut [Part<'_>], at: usize, count: usize) {
    if at < parts.len() {
        parts[at].count = count;
        parts[at].sectors.truncate(count);
    }
}

/// Takes the sectors that a part is missing.
fn fill(part: &mut Part<'_>, free: &mut Sectors) -> Result<(), AllocError> {
    for _ in part.sectors.len()..part.count {
        let sector = free.take()?;
        part.sectors.push(sector)?;
    }
    Ok(())
}

/// Gives the parts in mini sectors, or those in sectors, what they are missing, the least free ones first, and tells
/// how many there are up to the last one that is taken.
pub(crate) fn fill_all(
    alloc: Global,
    parts: &mut [Part<'_>],
    short: bool,
) -> Result<usize, AllocError> {
    let mut free = Sectors {
        taken: Vec::new(alloc),
        at: 0,
    };
    for part in parts.iter() {
        if part.short == short {
            for sector in &part.sectors {
                free.keep(*sector as usize)?;
            }
        }
    }
    for part in parts.iter_mut() {
        if part.short == short {
            fill(part, &mut free)?;
        }
    }
    Ok(free.taken.len())
}
