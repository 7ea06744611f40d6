//! The blocks of two files that differ.

ghost use Rattle.store_images.specs.Changed.{changed_blocks, numbers_between};
ghost use Rattle.std.specs.Prelude.{◌≡◌, ◌≤◌, ◌<◌, ◌^◌, ◌++◌, IfOk, OnOk, length};
ghost use Rattle.store_model.specs.Changes.{bytes_in};
ghost use Rattle.cfb_file.specs.Limits.{MOST_BYTES};

use std::alloc::{AllocError, Global};

/// The size of a block: a sector, or the header.
pub(crate) const BLOCK: usize = 512;

/// The bytes of a file in its block of this number.
pub(crate) fn block(file: &[u8], number: usize) -> &[u8]
    requires { number < 2 ^ 32 }
    ensures { result.now ≡ bytes_in number file.now }
{
    let from = (BLOCK * number).min(file.len());
    let to = (BLOCK * number + BLOCK).min(file.len());
    &file[from..to]
}

/// Adds a block's number unless its bytes are what they were.
pub(crate) fn push_changed(
    numbers: &mut Vec<u32>,
    number: u32,
    was: &[u8],
    now: &[u8],
) -> Result<(), AllocError>
    ensures { OnOk result (numbers.new.items ≡ numbers.old.items ++ numbers_between number was.now now.now) }
{
    if was == now {
        return Ok(());
    }
    numbers.push(number)?;
    Ok(())
}

/// The numbers of a new file's blocks of 512 bytes that differ from an old one's, or that are new, rising. Block 0 is
/// the header.
pub fn changed(alloc: Global, old: &[u8], new: &[u8]) -> Result<Vec<u32>, AllocError>
    requires { length new.now ≤ MOST_BYTES }
    ensures { IfOk result (λ v. v.items ≡ changed_blocks old.now new.now) }
{
    let mut numbers = Vec::new(alloc);
    let count = new.len().div_ceil(BLOCK) as u32;
    for number in 0..count {
        let was = block(old, number as usize);
        let now = block(new, number as usize);
        push_changed(&mut numbers, number, was, now)?;
    }
    Ok(numbers)
}
