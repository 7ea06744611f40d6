//! The bytes of the streams of an opened file, by its tables.

ghost use Rattle.cfb_file.specs.Limits.{CUTOFF};
ghost use Rattle.folder_commands.specs.Streams.{bytes_in};
ghost use Rattle.std.specs.Prelude.{◌*◌, ◌<◌, ◌≡◌, ◌≤◌, IfOk, IfSome, List, length, ℕ};
ghost use Rattle.write_cleaned.specs.Windows.{IsWindow};
ghost use Rattle.read_streams.specs.Blocks.{held_in};
ghost use Rattle.read_streams.specs.Tables.{read_by};

use crate::streams::Stream;
use read_chains::links::Links;
use read_outlines::outline::{Place, is_short};
use read_source::source::Source;
use read_streams::blocks::{Blocks, Lies, count_sectors};
use read_streams::chains::follow;
use read_streams::fault::CopyFault;
use read_streams::tables::Tables;
use std::alloc::Global;
use write_cleaned::stream_moving::send_short;
use write_cleaned::window::Window;
use write_parts::pieces::finish;

/// Reads the stream of fewer than 4,096 bytes that lies at a place, by way of a window of the mini stream.
fn read_short<S: Source>(
    alloc: Global,
    source: &mut S,
    tables: &Tables,
    window: &mut Window,
    place: Place,
) -> Result<Vec<u8>, CopyFault>
    requires whole { (m : ℕ) × (length tables.now.mini_fat.items ≡ 4 * m) }
    requires short { place.size < CUTOFF }
    ensures read { IfOk result (λ bytes. IfSome (S.bytes source.old) (λ a. length a ≡ tables.now.len
        → IsWindow a tables.now window.old
        → (bytes.items ≡ read_by a tables.now place) × IsWindow a tables.now window.new)) }
    ensures kept { S.bytes source.new ≡ S.bytes source.old }
{
    let mut bytes = Vec::new(alloc);
    let mut waiting = Vec::new(alloc);
    send_short(
        alloc,
        &mut bytes,
        &mut waiting,
        source,
        tables,
        window,
        place,
    )?;
    // What was sent ends with zeros up to whole mini sectors.
    match finish(&mut bytes, &waiting) {
        Ok(()) => {}
        Err(_) => return Err(CopyFault::NoMemory),
    }
    bytes.truncate(place.size as usize);
    Ok(bytes)
}

/// Where the stream of 4,096 bytes or more lies that a place tells of.
fn follow_long(alloc: Global, tables: &Tables, place: Place) -> Result<Lies, CopyFault>
    requires long { CUTOFF ≤ place.size }
    ensures lies { IfOk result (λ lies. (a : List ℕ) → held_in a lies ≡ read_by a tables.now place) }
{
    let links = Links::lent(&tables.fat);
    match follow(alloc, &links, place.first, count_sectors(place)) {
        Ok(sectors) => Ok(Lies {
            blocks: Blocks::Sectors(sectors),
            size: place.size as usize,
        }),
        Err(_) => Err(CopyFault::NoMemory),
    }
}

/// The bytes of the stream that lies at a place: read, where there are fewer than 4,096, and else where they lie.
///
/// Refused: `Unreadable` where a read fails; `NoMemory`.
pub(crate) fn seek<S: Source>(
    alloc: Global,
    source: &mut S,
    tables: &Tables,
    window: &mut Window,
    place: Place,
) -> Result<Stream, CopyFault>
    requires whole { (m : ℕ) × (length tables.now.mini_fat.items ≡ 4 * m) }
    ensures sought { IfOk result (λ stream. IfSome (S.bytes source.old) (λ a. length a ≡ tables.now.len
        → IsWindow a tables.now window.old
        → (bytes_in a stream ≡ read_by a tables.now place) × IsWindow a tables.now window.new)) }
    ensures kept { S.bytes source.new ≡ S.bytes source.old }
{
    if is_short(place) {
        return match read_short(alloc, source, tables, window, place) {
            Ok(bytes) => Ok(Stream::Held(bytes)),
            Err(fault) => Err(fault),
        };
    }
    match follow_long(alloc, tables, place) {
        Ok(lies) => Ok(Stream::Lies(lies)),
        Err(fault) => Err(fault),
    }
}
