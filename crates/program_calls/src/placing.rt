//! Bytes that are put where the caller has a place for them.

ghost use Rattle.program_calls.specs.Answers.{IsPut};
ghost use Rattle.std.specs.Prelude.{◌≡◌, length};

use crate::numbers::{DONE, NO_ROOM};

/// Puts bytes at the front of a place, and tells how many they are; without room for all it puts none.
pub(crate) fn put(bytes: &[u8], out: &mut [u8], needed: &mut usize) -> u32
    ensures put { IsPut result out.old out.new bytes.now }
    ensures needed { needed.new ≡ length bytes.now }
{
    *needed = bytes.len();
    if out.len() < bytes.len() {
        return NO_ROOM;
    }
    out[..bytes.len()].copy_from_slice(bytes);
    DONE
}
