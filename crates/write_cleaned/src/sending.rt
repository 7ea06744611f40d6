//! The streams of an outline sent from where they lie.

ghost use Rattle.cfb_layout.specs.Directory.{long_streams, short_streams};
ghost use Rattle.cfb_layout.specs.Image.{padded, whole_pieces};
ghost use Rattle.cfb_file.specs.Need.{long_sectors, mini_sectors};
ghost use Rattle.write_cleaned.specs.Sizes.{IsSized};
ghost use Rattle.cfb_file.specs.Outline.{part_of};
ghost use Rattle.read_outlines.specs.View.{part_view, shown, shown_part};
ghost use Rattle.write_parts.specs.Sends.{Sends};
ghost use Rattle.write_parts.specs.Streams.{long_within, short_within};
ghost use Rattle.std.specs.Prelude.{◌*◌, ◌≡◌, List, OnOk, Some, length, ℕ};
ghost use Rattle.write_cleaned.specs.Windows.{IsWindow};
ghost use Rattle.read_streams.specs.Tables.{read_by};

use crate::stream_moving::{pad, send_long, send_short};
use crate::window::Window;
use read_outlines::outline::{Outline, Part, is_short};
use read_source::source::Source;
use read_streams::fault::CopyFault;
use read_streams::tables::Tables;
use std::io::Write;
use write_parts::streams::sector_zeros;

/// Sends the streams below a storage that are shorter than 4,096 bytes, in the order of their entries, each in whole
/// mini sectors.
#[cycle(send_shorts)]
fn send_shorts<S: Source, W: Write>(
    writer: &mut W,
    waiting: &mut Vec<u8>,
    source: &mut S,
    tables: &Tables,
    window: &mut Window,
    outline: &Outline,
) -> Result<(), CopyFault>
    requires whole { (m : ℕ) × (length tables.now.mini_fat.items ≡ 4 * m) }
    ensures sent { OnOk result ((a : List ℕ) → S.bytes source.old ≡ Some a → length a ≡ tables.now.len
        → IsWindow a tables.now window.old → IsSized (read_by a tables.now) outline.now
        → Sends (W.contents writer.old) (W.contents writer.new) waiting.old.items waiting.new.items
        (whole_pieces 64 (short_streams (shown (read_by a tables.now) outline.now)))
        × IsWindow a tables.now window.new) }
    ensures kept { S.bytes source.new ≡ S.bytes source.old }
{
    for part in &outline.parts {
        send_short_part(writer, waiting, source, tables, window, &part.1)?;
    }
    Ok(())
}

/// Sends a part's.
#[cycle(send_shorts)]
fn send_short_part<S: Source, W: Write>(
    writer: &mut W,
    waiting: &mut Vec<u8>,
    source: &mut S,
    tables: &Tables,
    window: &mut Window,
    part: &Part,
) -> Result<(), CopyFault>
    requires whole { (m : ℕ) × (length tables.now.mini_fat.items ≡ 4 * m) }
    ensures sent { OnOk result ((a : List ℕ) → S.bytes source.old ≡ Some a → length a ≡ tables.now.len
        → IsWindow a tables.now window.old → part_of (shown_part (read_by a tables.now) part.now)
        ≡ part_view part.now
        → Sends (W.contents writer.old) (W.contents writer.new) waiting.old.items waiting.new.items
        (whole_pieces 64 (short_within (shown_part (read_by a tables.now) part.now)))
        × IsWindow a tables.now window.new) }
    ensures kept { S.bytes source.new ≡ S.bytes source.old }
{
    match part {
        Part::Stream(place) => {
            if !is_short(*place) {
                return Ok(());
            }
            let alloc = *waiting.allocator();
            send_short(alloc, writer, waiting, source, tables, window, *place)
        }
        Part::Storage(inner) => send_shorts(writer, waiting, source, tables, window, inner),
    }
}

/// Sends the mini stream of an outline whose short streams take so many mini sectors, in whole sectors.
pub(crate) fn send_mini_stream<S: Source, W: Write>(
    writer: &mut W,
    waiting: &mut Vec<u8>,
    source: &mut S,
    tables: &Tables,
    window: &mut Window,
    outline: &Outline,
    minis: u32,
) -> Result<(), CopyFault>
    requires whole { (m : ℕ) × (length tables.now.mini_fat.items ≡ 4 * m) }
    ensures sent { OnOk result ((a : List ℕ) → S.bytes source.old ≡ Some a → length a ≡ tables.now.len
        → IsWindow a tables.now window.old → IsSized (read_by a tables.now) outline.now
        → minis ≡ mini_sectors (shown (read_by a tables.now) outline.now)
        → Sends (W.contents writer.old) (W.contents writer.new) waiting.old.items waiting.new.items
        (padded 512 (whole_pieces 64 (short_streams (shown (read_by a tables.now) outline.now))))) }
    ensures kept { S.bytes source.new ≡ S.bytes source.old }
{
    if minis == 0 {
        return Ok(());
    }
    send_shorts(writer, waiting, source, tables, window, outline)?;
    pad(writer, waiting, sector_zeros(64 * minis as usize))
}

/// Sends the streams below a storage that have 4,096 bytes or more, in the order of their entries, each in whole
/// sectors.
#[cycle(send_longs)]
fn send_longs<S: Source, W: Write>(
    writer: &mut W,
    waiting: &mut Vec<u8>,
    source: &mut S,
    tables: &Tables,
    outline: &Outline,
) -> Result<(), CopyFault>
    ensures sent { OnOk result ((a : List ℕ) → S.bytes source.old ≡ Some a → length a ≡ tables.now.len
        → IsSized (read_by a tables.now) outline.now
        → Sends (W.contents writer.old) (W.contents writer.new) waiting.old.items waiting.new.items
        (whole_pieces 512 (long_streams (shown (read_by a tables.now) outline.now)))) }
    ensures kept { S.bytes source.new ≡ S.bytes source.old }
{
    for part in &outline.parts {
        send_long_part(writer, waiting, source, tables, &part.1)?;
    }
    Ok(())
}

/// Sends a part's.
#[cycle(send_longs)]
fn send_long_part<S: Source, W: Write>(
    writer: &mut W,
    waiting: &mut Vec<u8>,
    source: &mut S,
    tables: &Tables,
    part: &Part,
) -> Result<(), CopyFault>
    ensures sent { OnOk result ((a : List ℕ) → S.bytes source.old ≡ Some a → length a ≡ tables.now.len
        → part_of (shown_part (read_by a tables.now) part.now) ≡ part_view part.now
        → Sends (W.contents writer.old) (W.contents writer.new) waiting.old.items waiting.new.items
        (whole_pieces 512 (long_within (shown_part (read_by a tables.now) part.now)))) }
    ensures kept { S.bytes source.new ≡ S.bytes source.old }
{
    match part {
        Part::Stream(place) => {
            if is_short(*place) {
                return Ok(());
            }
            let alloc = *waiting.allocator();
            send_long(alloc, writer, waiting, source, tables, *place)
        }
        Part::Storage(inner) => send_longs(writer, waiting, source, tables, inner),
    }
}

/// Sends the long streams of an outline that take so many sectors.
pub(crate) fn send_long_streams<S: Source, W: Write>(
    writer: &mut W,
    waiting: &mut Vec<u8>,
    source: &mut S,
    tables: &Tables,
    outline: &Outline,
    longs: u32,
) -> Result<(), CopyFault>
    ensures sent { OnOk result ((a : List ℕ) → S.bytes source.old ≡ Some a → length a ≡ tables.now.len
        → IsSized (read_by a tables.now) outline.now
        → longs ≡ long_sectors (shown (read_by a tables.now) outline.now)
        → Sends (W.contents writer.old) (W.contents writer.new) waiting.old.items waiting.new.items
        (whole_pieces 512 (long_streams (shown (read_by a tables.now) outline.now)))) }
    ensures kept { S.bytes source.new ≡ S.bytes source.old }
{
    if longs == 0 {
        return Ok(());
    }
    send_longs(writer, waiting, source, tables, outline)
}
