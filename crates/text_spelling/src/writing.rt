//! How numbers, bytes, names and class ids are written.

ghost use Rattle.std.specs.Prelude.{◌≡◌, ◌<◌, ◌++◌, ◌∷◌, OnOk};
ghost use Rattle.text_words.specs.Spelled.{byte_hex, byte_text, class_text, digit_text, hex, name_text, numbered};

use crate::words::is_hidden;
use std::alloc::{AllocError, Global};
use tree_values::class_id::ClassId;
use uuid::Uuid;

/// The lower-case hexadecimal digit of a number below 16.
fn digit_text(digit: u8) -> u8
    requires { digit < 16 }
    ensures { result ≡ digit_text digit }
{
    if digit < 10 {
        b'0' + digit
    } else {
        b'a' + (digit - 10)
    }
}

/// Writes a byte in two hexadecimal digits.
fn push_byte_hex(text: &mut Vec<u8>, byte: u8) -> Result<(), AllocError>
    ensures { OnOk result (text.new.items ≡ text.old.items ++ byte_hex byte) }
{
    let digits = [digit_text(byte / 16), digit_text(byte % 16)];
    text.extend_from_slice(&digits)
}

/// Writes bytes, each in two lower-case hexadecimal digits.
pub fn push_hex(text: &mut Vec<u8>, bytes: &[u8]) -> Result<(), AllocError>
    ensures { OnOk result (text.new.items ≡ text.old.items ++ hex bytes.now) }
{
    for byte in bytes {
        push_byte_hex(text, *byte)?;
    }
    Ok(())
}

/// Writes a byte of a name.
fn push_byte(text: &mut Vec<u8>, byte: u8) -> Result<(), AllocError>
    ensures { OnOk result (text.new.items ≡ text.old.items ++ byte_text byte) }
{
    if is_hidden(byte) {
        text.push(b'\\')?;
        push_byte_hex(text, byte)
    } else {
        text.push(byte)?;
        Ok(())
    }
}

/// Writes a name as paths spell it: a byte up to 32, or 127, as a backslash and two hexadecimal digits.
pub fn push_name(text: &mut Vec<u8>, name: &[u8]) -> Result<(), AllocError>
    ensures { OnOk result (text.new.items ≡ text.old.items ++ name_text name.now) }
{
    for byte in name {
        push_byte(text, *byte)?;
    }
    Ok(())
}

/// Writes a class id.
pub fn push_class(text: &mut Vec<u8>, class: &ClassId) -> Result<(), AllocError>
    ensures { OnOk result (text.new.items ≡ text.old.items ++ class_text class.now) }
{
    let mut buffer = Uuid::encode_buffer();
    let id = Uuid::from_bytes_le(*class.as_bytes());
    let spelled = id.hyphenated().encode_lower(&mut buffer);
    text.extend_from_slice(spelled.as_bytes())?;
    Ok(())
}

/// Writes a number in decimal, behind a text.
pub fn push_numbered(
    alloc: Global,
    text: &mut Vec<u8>,
    before: &str,
    number: usize,
) -> Result<(), AllocError>
    ensures { OnOk result (text.new.items ≡ text.old.items ++ numbered before.now number) }
{
    text.extend_from_slice(before.as_bytes())?;
    let digits = number.to_string(alloc)?;
    text.extend_from_slice(digits.as_bytes())
}

/// Writes a word behind a space.
pub fn push_word(text: &mut Vec<u8>, word: &[u8]) -> Result<(), AllocError>
    ensures { OnOk result (text.new.items ≡ text.old.items ++ 32 ∷ word.now) }
{
    text.push(b' ')?;
    text.extend_from_slice(word)
}
