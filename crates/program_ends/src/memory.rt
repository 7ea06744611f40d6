//! Memory that is used again.

use std::alloc::Global;

/// How many bytes a block has that is taken once and given back untouched.
const KEPT: usize = 8_388_608;

/// Has large blocks of memory used again: the C library's malloc asks the system for each of them, whose pages are then
/// touched anew, until one of that size was given back; from then on it keeps those that it has.
pub fn keep_blocks(alloc: Global) {
    drop(Vec::<u8>::with_capacity(alloc, KEPT));
}
