//! A file that takes an older one's place, block by block.

ghost use Rattle.store_images.specs.Changed.{changed_before, changed_blocks, whole_block};
ghost use Rattle.cfb_file.specs.Limits.{MOST_FAT_SECTORS};
ghost use Rattle.std.specs.Prelude.{◌≡◌, ◌≤◌, ◌++◌, ◌+◌, ◌*◌, IfOk, OnOk, drop, length};
ghost use Rattle.store_model.specs.Changes.{bytes_in};

use crate::changed::{BLOCK, block, push_changed};
use std::alloc::{AllocError, Global};

/// A file, and the numbers of its blocks that differ from an older one's, or that are new, rising.
#[derive(Drop)]
pub(crate) struct Update {
    pub(crate) file: Vec<u8>,
    pub(crate) numbers: Vec<u32>,
}

/// Adds the first 512 of these bytes, and zeros where they are fewer.
fn push_whole(file: &mut Vec<u8>, bytes: &[u8]) -> Result<(), AllocError>
    ensures { OnOk result (file.new.items ≡ file.old.items ++ whole_block bytes.now) }
{
    let end = file.len() + BLOCK;
    file.extend_from_slice(&bytes[..BLOCK.min(bytes.len())])?;
    file.resize(end, 0)?;
    Ok(())
}

/// The bytes of a file from a place on.
fn part_from(file: &[u8], at: usize) -> &[u8]
    requires { at ≤ length file.now }
    ensures { result.now ≡ drop at file.now }
{
    &file[at..]
}

/// Adds the next block to a file, of which this is the number: these bytes, and zeros behind them. Adds the number to
/// those of the blocks that differ from an older file's, unless it had the same there.
fn push_given(
    file: &mut Vec<u8>,
    numbers: &mut Vec<u32>,
    number: u32,
    old: &[u8],
    given: &[u8],
) -> Result<(), AllocError>
    requires whole { length file.old.items ≡ 512 * number }
    requires so_far { numbers.old.items ≡ changed_before number old.now file.old.items }
    ensures whole { OnOk result (length file.new.items ≡ 512 * (number + 1)) }
    ensures so_far { OnOk result (numbers.new.items ≡ changed_before (number + 1) old.now file.new.items) }
{
    let was = block(old, number as usize);
    let at = file.len();
    push_whole(file, given)?;
    push_changed(numbers, number, was, part_from(file, at))?;
    Ok(())
}

/// Adds the next block as it is in an older file, which has it whole.
fn push_kept(
    file: &mut Vec<u8>,
    numbers: &[u32],
    number: u32,
    old: &[u8],
    was: &[u8],
) -> Result<(), AllocError>
    requires whole { length file.old.items ≡ 512 * number }
    requires so_far { numbers.now ≡ changed_before number old.now file.old.items }
    requires there { was.now ≡ bytes_in number old.now }
    requires full { 512 ≤ length was.now }
    ensures whole { OnOk result (length file.new.items ≡ 512 * (number + 1)) }
    ensures so_far { OnOk result (numbers.now ≡ changed_before (number + 1) old.now file.new.items) }
{
    file.extend_from_slice(was)?;
    Ok(())
}

/// Adds the next block to a file, of which this is the number: these bytes, and zeros behind them, or, without bytes,
/// as it is in an older file. Adds the number to those of the blocks that differ from the older file's.
fn push_block(
    file: &mut Vec<u8>,
    numbers: &mut Vec<u32>,
    number: u32,
    old: &[u8],
    given: &[u8],
) -> Result<(), AllocError>
    requires whole { length file.old.items ≡ 512 * number }
    requires so_far { numbers.old.items ≡ changed_before number old.now file.old.items }
    ensures whole { OnOk result (length file.new.items ≡ 512 * (number + 1)) }
    ensures so_far { OnOk result (numbers.new.items ≡ changed_before (number + 1) old.now file.new.items) }
{
    if !given.is_empty() {
        return push_given(file, numbers, number, old, given);
    }
    let was = block(old, number as usize);
    if was.len() < BLOCK {
        return push_given(file, numbers, number, old, was);
    }
    push_kept(file, numbers, number, old, was)
}

/// The file of these blocks, the header and as many sectors as there are: each has its bytes, and zeros behind them;
/// one without bytes is as in an older file.
pub(crate) fn overlaid(alloc: Global, old: &[u8], blocks: &[&[u8]]) -> Result<Update, AllocError>
    requires { length blocks.now ≤ 1 + 128 * MOST_FAT_SECTORS }
    ensures { IfOk result (λ u. u.numbers.items ≡ changed_blocks old.now u.file.items) }
{
    let mut file = Vec::with_capacity(alloc, BLOCK * blocks.len())?;
    let mut numbers = Vec::new(alloc);
    for number in 0..blocks.len() {
        let given = blocks[number];
        push_block(&mut file, &mut numbers, number as u32, old, given)?;
    }
    Ok(Update { file, numbers })
}
