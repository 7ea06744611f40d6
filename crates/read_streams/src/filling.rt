//! Buffers filled with the bytes of sectors.

ghost use Rattle.cfb_bytes.specs.Bytes.{block};
ghost use Rattle.cfb_header.specs.Bytes.{joined, sector};
ghost use Rattle.std.specs.Prelude.{◌*◌, ◌++◌, ◌≡◌, ◌≤◌, ◌⊎◌, IfErr, IfOk, IfSome, OnOk, length, take};
ghost use Rattle.read_streams.specs.declared.fault.CopyFault.TheVariants.{NoMemory, Unreadable};

use crate::fault::CopyFault;
use read_source::runs::run_length;
use read_source::source::Source;
use std::alloc::Global;

/// The size of a sector.
pub const SECTOR: usize = 512;

/// The size of a mini sector.
const MINI: usize = 64;

/// Fills a buffer with the bytes of a file of so many bytes from a place on, zero bytes standing for those past its
/// end.
pub(crate) fn fill<S: Source>(
    source: &mut S,
    len: usize,
    at: usize,
    buffer: &mut [u8],
) -> Result<(), CopyFault>
    ensures long { length buffer.new ≡ length buffer.old }
    ensures filled { OnOk result
        (IfSome (S.bytes source.old) (λ a. length a ≡ len → buffer.new ≡ block (length buffer.old) a at)) }
    ensures told { IfErr result (λ e. e ≡ Unreadable) }
    ensures kept { S.bytes source.new ≡ S.bytes source.old }
{
    let there = len.saturating_sub(at).min(buffer.len());
    buffer[there..].fill(0);
    match source.read_at(at as u64, &mut buffer[..there]) {
        Ok(()) => Ok(()),
        Err(_) => Err(CopyFault::Unreadable),
    }
}

/// Fills a buffer with the first bytes of sectors, reading neighbours at once.
pub fn fill_sectors<S: Source>(
    source: &mut S,
    len: usize,
    sectors: &[u32],
    buffer: &mut [u8],
) -> Result<(), CopyFault>
    requires enough { length buffer.old ≤ 512 * length sectors.now }
    ensures long { length buffer.new ≡ length buffer.old }
    ensures filled { OnOk result
        (IfSome (S.bytes source.old) (λ a. length a ≡ len
        → buffer.new ≡ take (length buffer.old) (joined (sector a) sectors.now))) }
    ensures told { IfErr result (λ e. e ≡ Unreadable) }
    ensures kept { S.bytes source.new ≡ S.bytes source.old }
{
    let all = buffer.len().div_ceil(SECTOR);
    let mut done = 0;
    while done < all {
        let count = run_length(sectors, done);
        let start = SECTOR * done;
        let end = SECTOR.saturating_mul(done + count).min(buffer.len());
        fill(
            source,
            len,
            SECTOR * (sectors[done] as usize + 1),
            &mut buffer[start..end],
        )?;
        done += count;
    }
    Ok(())
}

/// The bytes of mini sectors, which begin at these places of a file.
pub(crate) fn read_minis<S: Source>(
    alloc: Global,
    source: &mut S,
    len: usize,
    places: &[usize],
) -> Result<Vec<u8>, CopyFault>
    ensures read { IfOk result
        (λ v. IfSome (S.bytes source.old) (λ a. length a ≡ len → v.items ≡ joined (block 64 a) places.now)) }
    ensures told { IfErr result (λ e. (e ≡ Unreadable) ⊎ (e ≡ NoMemory)) }
    ensures kept { S.bytes source.new ≡ S.bytes source.old }
{
    let mut out = Vec::new(alloc);
    let mut mini = [0; MINI];
    for at in places {
        fill(source, len, *at, &mut mini)?;
        push(&mut out, &mini)?;
    }
    Ok(out)
}

/// Puts the bytes of a mini sector behind others.
fn push(out: &mut Vec<u8>, bytes: &[u8]) -> Result<(), CopyFault>
    ensures pushed { OnOk result (out.new.items ≡ out.old.items ++ bytes.now) }
    ensures told { IfErr result (λ e. e ≡ NoMemory) }
{
    match out.extend_from_slice(bytes) {
        Ok(()) => Ok(()),
        Err(_) => Err(CopyFault::NoMemory),
    }
}
