//! A file that is changed in place, block by block, and put back.

ghost use Rattle.store_images.specs.Changed.{changed_blocks, numbers_between};
ghost use Rattle.store_images.specs.Undone.{ChangesBlock, undone, with_block};
ghost use Rattle.cfb_file.specs.Limits.{MOST_FAT_SECTORS};
ghost use Rattle.std.specs.Prelude.{◌≡◌, ◌≤◌, ◌++◌, ◌+◌, ◌*◌, ◌∷◌, OnErr, OnOk, [], length};
ghost use Rattle.store_model.specs.Changes.{bytes_in};

use crate::changed::{BLOCK, block};
use std::alloc::{AllocError, Global};

/// A block that was written over, as it was.
#[derive(Drop)]
pub(crate) struct Was {
    number: u32,
    bytes: [u8; 512],
}

/// Writes over a block, as far as the file has it.
fn put(file: &mut [u8], number: u32, bytes: &[u8])
    requires { length bytes.now ≡ 512 }
    ensures { file.new ≡ with_block number bytes.now file.old }
{
    let from = (BLOCK * number as usize).min(file.len());
    let to = (BLOCK * number as usize + BLOCK).min(file.len());
    file[from..to].copy_from_slice(&bytes[..to - from]);
}

/// Keeps a block as it is.
fn keep(was: &mut Vec<Was>, number: u32, now: &[u8]) -> Result<(), AllocError>
    requires { length now.now ≡ 512 }
    ensures ok { OnOk result (was.new.items ≡ was.old.items ++ record { number = number; bytes = now.now } ∷ []) }
    ensures err { OnErr result (was.new.items ≡ was.old.items) }
{
    let mut bytes = [0; 512];
    bytes.copy_from_slice(now);
    was.push(Was { number, bytes })?;
    Ok(())
}

/// Writes over a block whose bytes aren't these, keeps what it was, and adds its number.
fn write_over(
    file: &mut [u8],
    was: &mut Vec<Was>,
    numbers: &mut Vec<u32>,
    number: u32,
    bytes: &[u8],
) -> Result<(), AllocError>
    requires there { 512 * number + 512 ≤ length file.old }
    requires whole { length bytes.now ≡ 512 }
    ensures steps { ChangesBlock number was.old.items was.new.items file.old file.new }
    ensures changed { OnOk result (numbers.new.items ≡ numbers.old.items ++ numbers_between number
        (bytes_in number file.old) (bytes_in number file.new)) }
{
    let now = block(file, number as usize);
    if now == bytes {
        return Ok(());
    }
    numbers.push(number)?;
    // It is kept before it changes: what is kept must put back the file where memory is wanting.
    keep(was, number, now)?;
    put(file, number, bytes);
    Ok(())
}

/// A block that begins with these bytes.
fn padded(bytes: &[u8]) -> [u8; 512]
    requires { length bytes.now ≤ 512 }
{
    let mut whole = [0; 512];
    whole[..bytes.len()].copy_from_slice(bytes);
    whole
}

/// Gives a block these bytes, and zeros behind them; without bytes it stays. Keeps what it was, and adds its number, if
/// it changes.
fn lay(
    file: &mut [u8],
    was: &mut Vec<Was>,
    numbers: &mut Vec<u32>,
    number: u32,
    given: &[u8],
) -> Result<(), AllocError>
    requires { 512 * number + 512 ≤ length file.old }
    ensures steps { ChangesBlock number was.old.items was.new.items file.old file.new }
    ensures changed { OnOk result (numbers.new.items ≡ numbers.old.items ++ numbers_between number
        (bytes_in number file.old) (bytes_in number file.new)) }
{
    if given.is_empty() {
        return Ok(());
    }
    if given.len() < BLOCK {
        return write_over(file, was, numbers, number, &padded(given));
    }
    write_over(file, was, numbers, number, &given[..BLOCK])
}

/// Lays these blocks, the header and as many sectors as there are, over a file of as many: each has its bytes, and
/// zeros behind them; one without bytes stays. What is written over is kept, and the numbers of the blocks that change
/// are added.
pub(crate) fn lay_over(
    file: &mut [u8],
    was: &mut Vec<Was>,
    numbers: &mut Vec<u32>,
    blocks: &[&[u8]],
) -> Result<(), AllocError>
    requires as_many { 512 * length blocks.now ≡ length file.old }
    requires few { length blocks.now ≤ 1 + 128 * MOST_FAT_SECTORS }
    requires none_kept { was.old.items ≡ [] }
    requires none_changed { numbers.old.items ≡ [] }
    ensures undone { undone was.new.items file.new ≡ file.old }
    ensures changed { OnOk result (numbers.new.items ≡ changed_blocks file.old file.new) }
{
    for number in 0..blocks.len() {
        lay(file, was, numbers, number as u32, blocks[number])?;
    }
    Ok(())
}

/// Puts back the blocks that were written over, the last one first.
pub(crate) fn put_back(file: &mut [u8], mut was: Vec<Was>)
    ensures { file.new ≡ undone was.items file.old }
{
    while let Some(last) = was.pop() {
        put(file, last.number, &last.bytes);
    }
}
