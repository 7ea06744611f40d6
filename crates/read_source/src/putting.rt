//! Bytes that were read, put in their places.

ghost use Rattle.cfb_bytes.specs.Bytes.{block};
ghost use Rattle.std.specs.Prelude.{◌*◌, ◌+◌, ◌-◌, ◌<◌, ◌≡◌, ◌≤◌, ◌^◌, OnOk, length, min, ℕ};

use read_packed::places::{BLOCK, Held, Places};
use std::alloc::{AllocError, Global};

/// Puts the bytes of blocks from one on in their places, held as is asked: so many blocks, or as many as the file has.
pub(crate) fn put_run(
    alloc: Global,
    file: &mut Places,
    first: usize,
    count: usize,
    bytes: &[u8],
    held: Held,
) -> Result<(), AllocError>
    requires near { first ≤ 2 ^ 40 }
    requires whole { length bytes.now ≡ min (512 * count) (length file.old - 512 * first) }
    ensures len { length file.new ≡ length file.old }
    ensures here { OnOk result ((k : ℕ) → 512 * k < length bytes.now → block 512 file.new (512 * (first + k))
        ≡ block 512 bytes.now (512 * k)) }
    ensures before { OnOk result ((m : ℕ) → m < first → block 512 file.new (512 * m) ≡ block 512 file.old (512 * m)) }
    ensures behind { OnOk result ((m : ℕ) → 512 * first + length bytes.now ≤ 512 * m
        → block 512 file.new (512 * m) ≡ block 512 file.old (512 * m)) }
{
    let blocks = bytes.len().div_ceil(BLOCK);
    for k in 0..blocks {
        let at = BLOCK * k;
        let end = BLOCK.min(bytes.len() - at) + at;
        file.put(alloc, first + k, &bytes[at..end], held)?;
    }
    Ok(())
}
