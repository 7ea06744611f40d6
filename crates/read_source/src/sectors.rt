//! Sectors read into their places.

ghost use Rattle.cfb_bytes.specs.Bytes.{block};
ghost use Rattle.read_source.specs.Filled.{IsOfReading, IsRead, IsRunRead};
ghost use Rattle.std.specs.Prelude.{◌≡◌, ◌≤◌, IfErr, IfOk, IfSome, OnOk, drop, length, take};

use crate::fault::PlacesFault;
use crate::putting::put_run;
use crate::runs::run_length;
use crate::source::Source;
use read_packed::places::{BLOCK, Held, Places};
use std::alloc::Global;

/// Puts so many bytes from a place on into a buffer, in the place of what stood there.
fn fill<S: Source>(
    source: &mut S,
    at: usize,
    size: usize,
    buffer: &mut Vec<u8>,
) -> Result<(), PlacesFault>
    ensures len { OnOk result (length buffer.new.items ≡ size) }
    ensures bytes { OnOk result (IfSome (S.bytes source.old) (λ a. buffer.new.items ≡ take size (drop at a))) }
    ensures told { IfErr result IsOfReading }
    ensures kept { S.bytes source.new ≡ S.bytes source.old }
{
    buffer.resize(size, 0)?;
    match source.read_at(at as u64, buffer.as_mut_slice()) {
        Ok(()) => Ok(()),
        Err(_) => Err(PlacesFault::Unreadable),
    }
}

/// So many bytes from a place on.
pub(crate) fn read_bytes<S: Source>(
    alloc: Global,
    source: &mut S,
    at: usize,
    size: usize,
) -> Result<Vec<u8>, PlacesFault>
    ensures len { IfOk result (λ v. length v.items ≡ size) }
    ensures bytes { IfOk result (λ v. IfSome (S.bytes source.old) (λ a. v.items ≡ take size (drop at a))) }
    ensures told { IfErr result IsOfReading }
    ensures kept { S.bytes source.new ≡ S.bytes source.old }
{
    let mut bytes = Vec::new(alloc);
    fill(source, at, size, &mut bytes)?;
    Ok(bytes)
}

/// Reads sectors that stand one after another, so many from one on, as far as the file goes, to be held as is asked.
/// They go by way of a buffer.
fn read_run<S: Source>(
    alloc: Global,
    source: &mut S,
    file: &mut Places,
    first: u32,
    count: usize,
    held: Held,
    buffer: &mut Vec<u8>,
) -> Result<(), PlacesFault>
    ensures len { length file.new ≡ length file.old }
    ensures front { OnOk result (block 512 file.new 0 ≡ block 512 file.old 0) }
    ensures read { OnOk result (IfSome (S.bytes source.old) (λ a. length a ≡ length file.old
        → IsRunRead a file.old file.new first count)) }
    ensures told { IfErr result IsOfReading }
    ensures kept { S.bytes source.new ≡ S.bytes source.old }
{
    let start = BLOCK * (first as usize + 1);
    if start >= file.len() {
        return Ok(());
    }
    let size = BLOCK.saturating_mul(count).min(file.len() - start);
    fill(source, start, size, buffer)?;
    put_run(alloc, file, first as usize + 1, count, buffer, held)?;
    Ok(())
}

/// Reads sectors, neighbours at once, to be held as is asked.
pub(crate) fn read_sectors<S: Source>(
    alloc: Global,
    source: &mut S,
    file: &mut Places,
    sectors: &[u32],
    held: Held,
) -> Result<(), PlacesFault>
    ensures len { length file.new ≡ length file.old }
    ensures front { OnOk result (block 512 file.new 0 ≡ block 512 file.old 0) }
    ensures read { OnOk result (IfSome (S.bytes source.old) (λ a. length a ≡ length file.old
        → IsRead a file.old file.new sectors.now)) }
    ensures told { IfErr result IsOfReading }
    ensures kept { S.bytes source.new ≡ S.bytes source.old }
{
    // One buffer for all runs, so that none is cleared anew for each.
    let mut buffer = Vec::new(alloc);
    let mut at = 0;
    while at < sectors.len() {
        let count = run_length(sectors, at);
        read_run(alloc, source, file, sectors[at], count, held, &mut buffer)?;
        at += count;
    }
    Ok(())
}
