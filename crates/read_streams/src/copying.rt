//! Bytes copied from the blocks where they lie, a piece at a time.

ghost use Rattle.cfb_bytes.specs.Bytes.{block};
ghost use Rattle.cfb_header.specs.Bytes.{joined, sector};
ghost use Rattle.std.specs.Io.KnownBytes.{Appends};
ghost use Rattle.std.specs.Prelude.{◌*◌, ◌≡◌, ◌≤◌, ◌⊎◌, IfErr, IfSome, OnOk, length, take};
ghost use Rattle.read_streams.specs.Blocks.{Begins, blocks_in};
ghost use Rattle.read_streams.specs.declared.fault.CopyFault.TheVariants.{NoMemory, Unreadable, Unwritable};

use crate::blocks::Blocks;
use crate::fault::CopyFault;
use crate::filling::{SECTOR, fill_sectors, read_minis};
use read_source::source::Source;
use std::alloc::Global;
use std::io::Write;
use text_io::output::write_all;

/// The most bytes of a piece.
const PIECE: usize = 65536;

/// Writes bytes.
fn write<W: Write>(writer: &mut W, bytes: &[u8]) -> Result<(), CopyFault>
    ensures written { OnOk result (Appends (W.contents writer.old) (W.contents writer.new) bytes.now) }
    ensures told { IfErr result (λ e. e ≡ Unwritable) }
{
    match write_all(writer, bytes) {
        Ok(()) => Ok(()),
        Err(_) => Err(CopyFault::Unwritable),
    }
}

/// Copies the first bytes of sectors, as many as a buffer has.
fn copy_piece<S: Source, W: Write>(
    source: &mut S,
    len: usize,
    sectors: &[u32],
    buffer: &mut [u8],
    writer: &mut W,
) -> Result<(), CopyFault>
    requires enough { length buffer.old ≤ 512 * length sectors.now }
    ensures written { OnOk result
        (IfSome (S.bytes source.old) (λ a. length a ≡ len → Appends (W.contents writer.old) (W.contents writer.new)
        (take (length buffer.old) (joined (sector a) sectors.now)))) }
    ensures unwritten { IfErr result (λ e. e ≡ Unreadable → writer.new ≡ writer.old) }
    ensures told { IfErr result (λ e. (e ≡ Unreadable) ⊎ (e ≡ Unwritable)) }
    ensures long { length buffer.new ≡ length buffer.old }
    ensures kept { S.bytes source.new ≡ S.bytes source.old }
{
    fill_sectors(source, len, sectors, buffer)?;
    write(writer, buffer)
}

/// Copies the first bytes of sectors.
fn copy_sectors<S: Source, W: Write>(
    source: &mut S,
    len: usize,
    sectors: &[u32],
    size: usize,
    writer: &mut W,
) -> Result<(), CopyFault>
    ensures written { OnOk result
        (IfSome (S.bytes source.old) (λ a. length a ≡ len → Appends (W.contents writer.old) (W.contents writer.new)
        (take size (joined (sector a) sectors.now)))) }
    ensures told { IfErr result (λ e. (e ≡ Unreadable) ⊎ (e ≡ Unwritable)) }
    ensures begun { IfErr result (λ e. e ≡ Unreadable
        → IfSome (S.bytes source.old) (λ a. length a ≡ len → Begins (W.contents writer.old) (W.contents writer.new)
        (take size (joined (sector a) sectors.now)))) }
    ensures kept { S.bytes source.new ≡ S.bytes source.old }
{
    let all = size.min(SECTOR.saturating_mul(sectors.len()));
    let pieces = all.div_ceil(PIECE);
    let mut buffer = [0u8; PIECE];
    let mut done = 0;
    while done < pieces {
        let start = PIECE * done;
        let many = PIECE.min(all - start);
        copy_piece(
            source,
            len,
            &sectors[start / SECTOR..],
            &mut buffer[..many],
            writer,
        )?;
        done += 1;
    }
    Ok(())
}

/// Copies the first bytes of mini sectors, which begin at these places of a file.
fn copy_minis<S: Source, W: Write>(
    alloc: Global,
    source: &mut S,
    len: usize,
    places: &[usize],
    size: usize,
    writer: &mut W,
) -> Result<(), CopyFault>
    ensures written { OnOk result
        (IfSome (S.bytes source.old) (λ a. length a ≡ len → Appends (W.contents writer.old) (W.contents writer.new)
        (take size (joined (block 64 a) places.now)))) }
    ensures unwritten { IfErr result (λ e. e ≡ NoMemory → writer.new ≡ writer.old) }
    ensures begun { IfErr result (λ e. e ≡ Unreadable
        → IfSome (S.bytes source.old) (λ a. length a ≡ len → Begins (W.contents writer.old) (W.contents writer.new)
        (take size (joined (block 64 a) places.now)))) }
    ensures kept { S.bytes source.new ≡ S.bytes source.old }
{
    let bytes = read_minis(alloc, source, len, places)?;
    write(writer, &bytes[..size.min(bytes.len())])
}

/// Copies the first bytes of blocks of a file of so many bytes, a piece of at most 65,536 at a time: each is read whole
/// before it is written.
///
/// Refused: `NoMemory`, where nothing is written; `Unreadable` where a read fails, and then a front of the bytes is
/// written; `Unwritable` where a write fails.
pub fn copy_blocks<S: Source, W: Write>(
    alloc: Global,
    source: &mut S,
    len: usize,
    blocks: &Blocks,
    size: usize,
    writer: &mut W,
) -> Result<(), CopyFault>
    ensures written { OnOk result
        (IfSome (S.bytes source.old) (λ a. length a ≡ len → Appends (W.contents writer.old) (W.contents writer.new)
        (take size (blocks_in a blocks.now)))) }
    ensures unwritten { IfErr result (λ e. e ≡ NoMemory → writer.new ≡ writer.old) }
    ensures begun { IfErr result (λ e. e ≡ Unreadable
        → IfSome (S.bytes source.old) (λ a. length a ≡ len → Begins (W.contents writer.old) (W.contents writer.new)
        (take size (blocks_in a blocks.now)))) }
    ensures kept { S.bytes source.new ≡ S.bytes source.old }
{
    match blocks {
        Blocks::Sectors(sectors) => copy_sectors(source, len, sectors, size, writer),
        Blocks::Minis(places) => copy_minis(alloc, source, len, places, size, writer),
    }
}
