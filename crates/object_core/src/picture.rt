//! Pictures that grow line by line.

ghost use Rattle.object_core.specs.Pictures.{ended_line};
ghost use Rattle.std.specs.Prelude.{◌++◌, ◌≡◌, OnOk};

use std::alloc::AllocError;

/// Puts a line to the end, and a line feed behind it.
///
/// Refused for want of memory alone. The picture may then have got a part of the line.
pub fn push_line(picture: &mut Vec<u8>, line: &[u8]) -> Result<(), AllocError>
    ensures { OnOk result (picture.new.items ≡ picture.old.items ++ ended_line line.now) }
{
    picture.extend_from_slice(line)?;
    picture.push(b'\n')?;
    Ok(())
}
