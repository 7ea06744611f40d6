//! How many bytes are taken.

ghost use Rattle.std.specs.Prelude.{◌≡◌, length, nat_lt};
ghost use Rattle.text_io.specs.Input.{most};

/// The most bytes that a file or a text may have.
const MOST: u64 = 134_217_728;

/// Whether there are more bytes than are taken.
pub(crate) fn is_too_big(bytes: &[u8]) -> bool
    ensures { result ≡ nat_lt most (length bytes.now) }
{
    bytes.len() as u64 > MOST
}
