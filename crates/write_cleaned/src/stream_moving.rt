//! Streams that go from where they lie to those that wait to be written.

ghost use Rattle.cfb_header.specs.Bytes.{joined, sector, u32_at};
ghost use Rattle.cfb_layout.specs.Image.{padded};
ghost use Rattle.cfb_file.specs.Limits.{CUTOFF};
ghost use Rattle.write_parts.specs.Sends.{Sends};
ghost use Rattle.std.specs.List.{range_with_len};
ghost use Rattle.std.specs.Prelude.{[], ◌*◌, ◌+◌, ◌++◌, ◌-◌, ◌/◌, ◌<◌, ◌^◌, ◌≡◌, ◌≤◌, IfSome, OnOk, drop, length};
ghost use Rattle.std.specs.Prelude.{replicate, take, ℕ};
ghost use Rattle.write_cleaned.specs.Windows.{IsAdded, IsPartAdded, IsWindow};
ghost use Rattle.read_streams.specs.Chains.{walked};
ghost use Rattle.read_streams.specs.Tables.{read_by};

use crate::window::{Window, hold};
use read_chains::links::Links;
use read_outlines::outline::Place;
use read_source::source::Source;
use read_streams::blocks::{count_minis, count_sectors};
use read_streams::chains::{are_in_a_row, follow, follow_minis};
use read_streams::fault::CopyFault;
use read_streams::filling::{SECTOR, fill_sectors};
use read_streams::tables::Tables;
use std::alloc::Global;
use std::io::Write;
use write_parts::pieces::{PIECE, make_room, push_padded, send_zeros};
use write_parts::streams::{mini_zeros, sector_zeros};

/// The size of a mini sector.
const MINI: usize = 64;

/// Makes room for more to wait. Where there is some no write is tried, whose result is large.
fn room<W: Write>(writer: &mut W, waiting: &mut Vec<u8>) -> Result<(), CopyFault>
    ensures { OnOk result (Sends (W.contents writer.old) (W.contents writer.new) waiting.old.items waiting.new.items
        []) }
{
    if waiting.len() < PIECE {
        return Ok(());
    }
    match make_room(writer, waiting) {
        Ok(()) => Ok(()),
        Err(_) => Err(CopyFault::Unwritable),
    }
}

/// Adds bytes of a window, with zeros behind them.
fn push_held(
    waiting: &mut Vec<u8>,
    window: &Window,
    start: usize,
    len: usize,
    zeros: usize,
) -> Result<(), CopyFault>
    requires behind { 512 * window.now.first ≤ start }
    requires inside { start + len ≤ 512 * window.now.first + length window.now.bytes.items }
    requires few { zeros < 64 }
    ensures { OnOk result (waiting.new.items ≡ waiting.old.items
        ++ (take len (drop (start - 512 * window.now.first) window.now.bytes.items) ++ replicate zeros 0)) }
{
    let at = start - SECTOR * window.first;
    match push_padded(waiting, &window.bytes[at..at + len], zeros) {
        Ok(()) => Ok(()),
        Err(_) => Err(CopyFault::NoMemory),
    }
}

/// Adds bytes of the mini stream, with zeros behind them.
fn push_part<S: Source>(
    source: &mut S,
    tables: &Tables,
    window: &mut Window,
    waiting: &mut Vec<u8>,
    start: usize,
    len: usize,
    zeros: usize,
) -> Result<(), CopyFault>
    requires few { len ≤ 4096 }
    requires far { start < 2 ^ 62 }
    requires few_zeros { zeros < 64 }
    ensures added { OnOk result
        (IfSome (S.bytes source.old) (λ a. length a ≡ tables.now.len → IsWindow a tables.now window.old
        → IsPartAdded a tables.now window.new start len zeros waiting.old.items waiting.new.items)) }
    ensures kept { S.bytes source.new ≡ S.bytes source.old }
{
    hold(source, tables, window, start, len)?;
    push_held(waiting, window, start, len, zeros)
}

/// Adds a short stream whose mini sectors follow one another.
fn push_row<S: Source>(
    source: &mut S,
    tables: &Tables,
    window: &mut Window,
    waiting: &mut Vec<u8>,
    place: Place,
) -> Result<(), CopyFault>
    requires short { place.size < CUTOFF }
    requires in_a_row { walked (λ n. u32_at tables.now.mini_fat.items (4 * n)) place.first ((place.size + 63) / 64)
        ≡ range_with_len place.first ((place.size + 63) / 64) }
    ensures added { OnOk result
        (IfSome (S.bytes source.old) (λ a. length a ≡ tables.now.len → IsWindow a tables.now window.old
        → IsAdded a tables.now window.new (padded 64 (read_by a tables.now place)) waiting.old.items
        waiting.new.items)) }
    ensures kept { S.bytes source.new ≡ S.bytes source.old }
{
    let start = MINI * place.first as usize;
    let len = place.size as usize;
    push_part(source, tables, window, waiting, start, len, mini_zeros(len))
}

/// Adds a short stream, mini sector by mini sector.
fn push_minis<S: Source>(
    alloc: Global,
    source: &mut S,
    tables: &Tables,
    window: &mut Window,
    waiting: &mut Vec<u8>,
    place: Place,
) -> Result<(), CopyFault>
    requires whole { (m : ℕ) × (length tables.now.mini_fat.items ≡ 4 * m) }
    requires short { place.size < CUTOFF }
    ensures added { OnOk result
        (IfSome (S.bytes source.old) (λ a. length a ≡ tables.now.len → IsWindow a tables.now window.old
        → IsAdded a tables.now window.new (padded 64 (read_by a tables.now place)) waiting.old.items
        waiting.new.items)) }
    ensures kept { S.bytes source.new ≡ S.bytes source.old }
{
    let Ok(minis) = follow_minis(alloc, &tables.mini_fat, place.first, count_minis(place)) else {
        return Err(CopyFault::NoMemory);
    };
    let mut left = place.size as usize;
    for mini in &minis {
        let start = MINI * *mini as usize;
        let len = left.min(MINI);
        push_part(source, tables, window, waiting, start, len, MINI - len)?;
        left -= len;
    }
    Ok(())
}

/// Sends the bytes of the stream of fewer than 4,096 bytes that lies at a place, with zeros up to whole mini sectors.
/// Of the mini stream a window is held, which moves on as streams ask for what it hasn't.
///
/// Refused: `Unreadable` where a read fails, and where the mini stream ends before the stream; `Unwritable` where a
/// write fails; `NoMemory`.
pub fn send_short<S: Source, W: Write>(
    alloc: Global,
    writer: &mut W,
    waiting: &mut Vec<u8>,
    source: &mut S,
    tables: &Tables,
    window: &mut Window,
    place: Place,
) -> Result<(), CopyFault>
    requires whole { (m : ℕ) × (length tables.now.mini_fat.items ≡ 4 * m) }
    requires short { place.size < CUTOFF }
    ensures sent { OnOk result
        (IfSome (S.bytes source.old) (λ a. length a ≡ tables.now.len → IsWindow a tables.now window.old
        → Sends (W.contents writer.old) (W.contents writer.new) waiting.old.items waiting.new.items
        (padded 64 (read_by a tables.now place)) × IsWindow a tables.now window.new)) }
    ensures kept { S.bytes source.new ≡ S.bytes source.old }
{
    room(writer, waiting)?;
    // an empty stream lies nowhere in the mini stream
    if place.size != 0 && are_in_a_row(&tables.mini_fat, place.first, count_minis(place)) {
        return push_row(source, tables, window, waiting, place);
    }
    push_minis(alloc, source, tables, window, waiting, place)
}

/// Adds the first bytes of sectors, as many as are sent at once at the most.
fn push_sectors<S: Source>(
    source: &mut S,
    len: usize,
    sectors: &[u32],
    many: usize,
    waiting: &mut Vec<u8>,
) -> Result<(), CopyFault>
    requires enough { many ≤ 512 * length sectors.now }
    requires few { many ≤ 65536 }
    ensures pushed { OnOk result
        (IfSome (S.bytes source.old) (λ a. length a ≡ len → waiting.new.items ≡ waiting.old.items
        ++ take many (joined (sector a) sectors.now))) }
    ensures kept { S.bytes source.new ≡ S.bytes source.old }
{
    let before = waiting.len();
    if waiting.resize(before + many, 0).is_err() {
        return Err(CopyFault::NoMemory);
    }
    fill_sectors(source, len, sectors, &mut waiting[before..])
}

/// Sends the first bytes of sectors.
fn send_sectors<S: Source, W: Write>(
    writer: &mut W,
    waiting: &mut Vec<u8>,
    source: &mut S,
    len: usize,
    sectors: &[u32],
    size: usize,
) -> Result<(), CopyFault>
    requires enough { size ≤ 512 * length sectors.now }
    ensures sent { OnOk result (IfSome (S.bytes source.old) (λ a. length a ≡ len
        → Sends (W.contents writer.old) (W.contents writer.new) waiting.old.items waiting.new.items
        (take size (joined (sector a) sectors.now)))) }
    ensures kept { S.bytes source.new ≡ S.bytes source.old }
{
    let pieces = size.div_ceil(PIECE);
    let mut done = 0;
    while done < pieces {
        let start = PIECE * done;
        let many = PIECE.min(size - start);
        room(writer, waiting)?;
        push_sectors(source, len, &sectors[start / SECTOR..], many, waiting)?;
        done += 1;
    }
    Ok(())
}

/// Sends zeros, fewer than a sector has.
///
/// Refused: `Unwritable` where a write fails.
pub fn pad<W: Write>(writer: &mut W, waiting: &mut Vec<u8>, count: usize) -> Result<(), CopyFault>
    requires { count < 512 }
    ensures { OnOk result (Sends (W.contents writer.old) (W.contents writer.new) waiting.old.items waiting.new.items
        (replicate count 0)) }
{
    match send_zeros(writer, waiting, count) {
        Ok(()) => Ok(()),
        Err(_) => Err(CopyFault::Unwritable),
    }
}

/// Sends the bytes of the stream of 4,096 bytes or more that lies at a place, with zeros up to whole sectors. They are
/// read to where they wait, neighbours at once.
///
/// Refused: as `send_short`; `Unreadable` also where fewer sectors follow one another than the stream needs.
pub fn send_long<S: Source, W: Write>(
    alloc: Global,
    writer: &mut W,
    waiting: &mut Vec<u8>,
    source: &mut S,
    tables: &Tables,
    place: Place,
) -> Result<(), CopyFault>
    requires long { CUTOFF ≤ place.size }
    ensures sent { OnOk result (IfSome (S.bytes source.old) (λ a. length a ≡ tables.now.len
        → Sends (W.contents writer.old) (W.contents writer.new) waiting.old.items waiting.new.items
        (padded 512 (read_by a tables.now place)))) }
    ensures kept { S.bytes source.new ≡ S.bytes source.old }
{
    let links = Links::lent(&tables.fat);
    let Ok(sectors) = follow(alloc, &links, place.first, count_sectors(place)) else {
        return Err(CopyFault::NoMemory);
    };
    let size = place.size as usize;
    if SECTOR.saturating_mul(sectors.len()) < size {
        return Err(CopyFault::Unreadable);
    }
    send_sectors(writer, waiting, source, tables.len, &sectors, size)?;
    pad(writer, waiting, sector_zeros(size))
}
