//! Pictures as they are written.

ghost use Rattle.ole_model.specs.Presentations.{PAST_DATA, are_lines};
ghost use Rattle.server_model.specs.Pictures.{presented};
ghost use Rattle.std.specs.Prelude.{◌≡◌, ◌<◌, IfOk, length, true};

use ole_model::presentation::Presentation;
use std::alloc::{AllocError, Global};
use tree_values::bytes::Bytes;

/// The stream of a picture of these lines, empty for a picture without lines.
///
/// Refused for want of memory alone.
pub(crate) fn presented(alloc: Global, lines: &[u8]) -> Result<Bytes, AllocError>
    requires lines { are_lines lines.now ≡ true }
    requires fits { length lines.now < PAST_DATA }
    ensures { IfOk result (λ b. b ≡ presented lines.now) }
{
    if lines.is_empty() {
        return Ok(Bytes::new(alloc));
    }
    match Presentation::write(alloc, lines)? {
        Some(bytes) => Ok(bytes),
        None => unreachable!(),
    }
}
