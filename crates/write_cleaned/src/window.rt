//! A part of a mini stream, of which the rest is in its file.

ghost use Rattle.cfb_header.specs.Bytes.{joined, sector};
ghost use Rattle.std.specs.Prelude.{◌*◌, ◌+◌, ◌<◌, ◌^◌, ◌≡◌, ◌≤◌, IfOk, IfSome, List, OnOk, length, take, true, ℕ};
ghost use Rattle.write_cleaned.specs.Windows.{IsWindow};
ghost use Rattle.read_streams.specs.declared.tables.Tables.{Tables};

use read_source::source::Source;
use read_streams::fault::CopyFault;
use read_streams::filling::{SECTOR, fill_sectors};
use read_streams::tables::Tables;
use std::alloc::{AllocError, Global};

/// The most bytes of a window, and how many are read at least where there are as many: more than any short stream
/// takes, wherever in a sector it begins.
const MOST: usize = 65536;

const LEAST: usize = 8192;

/// Bytes of a mini stream that stand in a row.
#[derive(Drop)]
pub struct Window {
    /// Which sector of the mini stream they begin with.
    pub first: usize,
    pub bytes: Vec<u8>,
}

impl Window {
    /// A window without bytes.
    pub fn new(alloc: Global) -> Result<Window, AllocError>
        ensures { IfOk result (λ window. (file : List ℕ) (tables : Tables) → IsWindow file tables window) }
    {
        Ok(Window {
            first: 0,
            bytes: Vec::with_capacity(alloc, MOST)?,
        })
    }

    /// Whether it has so many bytes of the mini stream from a place on.
    fn has(&self, start: usize, len: usize) -> bool
        requires { start + len < 2 ^ 63 }
        ensures { result ≡ true → (512 * self.now.first ≤ start)
            × (start + len ≤ 512 * self.now.first + length self.now.bytes.items) }
    {
        let begins = SECTOR.saturating_mul(self.first);
        begins <= start && start + len <= begins.saturating_add(self.bytes.len())
    }
}

/// How many bytes are read at once from a sector of the mini stream on: twice as many as last where that stands in what
/// was read last, or right behind it, and else the least.
fn wanted(window: &Window, first: usize) -> usize
    ensures least { 8192 ≤ result }
    ensures most { result ≤ 65536 }
{
    let behind = window.first.saturating_add(window.bytes.len() / SECTOR);
    if window.first <= first && first <= behind {
        return (2 * window.bytes.len()).clamp(LEAST, MOST);
    }
    LEAST
}

/// Fills a vector with the first bytes of sectors, as many as it is to have.
fn refill<S: Source>(
    source: &mut S,
    len: usize,
    sectors: &[u32],
    many: usize,
    bytes: &mut Vec<u8>,
) -> Result<(), CopyFault>
    requires enough { many ≤ 512 * length sectors.now }
    ensures long { OnOk result (length bytes.new.items ≡ many) }
    ensures filled { OnOk result
        (IfSome (S.bytes source.old) (λ a. length a ≡ len → bytes.new.items
        ≡ take many (joined (sector a) sectors.now))) }
    ensures kept { S.bytes source.new ≡ S.bytes source.old }
{
    if bytes.resize(many, 0).is_err() {
        return Err(CopyFault::NoMemory);
    }
    fill_sectors(source, len, sectors, bytes.as_mut_slice())
}

/// Reads, where they aren't there, so many bytes of a mini stream from a place on into a window.
///
/// Refused: `Unreadable` where a read fails, and where the mini stream ends before them; `NoMemory`.
pub fn hold<S: Source>(
    source: &mut S,
    tables: &Tables,
    window: &mut Window,
    start: usize,
    len: usize,
) -> Result<(), CopyFault>
    requires few { len ≤ 4096 }
    requires far { start < 2 ^ 62 }
    ensures there { OnOk result ((512 * window.new.first ≤ start)
        × (start + len ≤ 512 * window.new.first + length window.new.bytes.items)) }
    ensures window { OnOk result
        (IfSome (S.bytes source.old) (λ a. length a ≡ tables.now.len → IsWindow a tables.now window.old
        → IsWindow a tables.now window.new)) }
    ensures kept { S.bytes source.new ≡ S.bytes source.old }
{
    if window.has(start, len) {
        return Ok(());
    }
    let first = start / SECTOR;
    let Some(sectors) = tables.mini_stream.get(first..) else {
        return Err(CopyFault::Unreadable);
    };
    let many = wanted(window, first).min(SECTOR.saturating_mul(sectors.len()));
    if many < start % SECTOR + len {
        return Err(CopyFault::Unreadable);
    }
    window.first = first;
    refill(source, tables.len, sectors, many, &mut window.bytes)
}
