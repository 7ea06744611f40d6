//! The names of storages and streams, as a folder holds them.

ghost use Rattle.folder_commands.specs.Names.{component_read, is_escaped};
ghost use Rattle.std.specs.Prelude.{◌<◌, ◌≡◌, None, Some, false, length, true, IfNone, IfOk, IfSome};
ghost use Rattle.text_spelling.specs.Words.{onto};

use std::alloc::AllocError;
use text_spelling::words::{is_hidden, lower_digit};

/// Whether a byte of a name is spelled by its digits.
fn is_escaped(byte: u8) -> bool
    ensures { result ≡ is_escaped byte }
{
    is_hidden(byte) || byte == b'.'
}

/// The first byte that the spelling of a name stands for, and what is spelled behind it.
fn first_byte(text: &[u8]) -> Option<(u8, &[u8])>
    requires { 0 < length text.now }
    ensures found { IfSome result (λ r. component_read text.now ≡ onto (Some r.0) (component_read r.1.now)) }
    ensures shorter { IfSome result (λ r. length r.1.now < length text.now) }
    ensures none { IfNone result (component_read text.now ≡ None) }
{
    match text {
        [b'\\', high, low, rest @ ..] => {
            let byte = 16 * lower_digit(*high)? + lower_digit(*low)?;
            if is_escaped(byte) {
                Some((byte, rest))
            } else {
                None
            }
        }
        [byte, rest @ ..] => {
            if is_hidden(*byte) || *byte == b'\\' {
                None
            } else {
                Some((*byte, rest))
            }
        }
        [] => None,
    }
}

/// Leaves the name that a folder holds as this text in the buffer, and says whether it holds one so. A directory takes
/// not all of these.
pub fn read_component(buffer: &mut Vec<u8>, text: &[u8]) -> Result<bool, AllocError>
    ensures found { IfOk result (λ is. is ≡ true → component_read text.now ≡ Some buffer.new.items) }
    ensures none { IfOk result (λ is. is ≡ false → component_read text.now ≡ None) }
{
    buffer.clear();
    let mut rest = text;
    while !rest.is_empty() {
        match first_byte(rest) {
            Some((byte, behind)) => {
                buffer.push(byte)?;
                rest = behind;
            }
            None => return Ok(false),
        }
    }
    Ok(true)
}
