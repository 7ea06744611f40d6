//! Bytes in the words of texts.

ghost use Rattle.std.specs.Option.{option_map};
ghost use Rattle.std.specs.Prelude.{◌≡◌, ◌<◌, ◌+◌, ◌*◌, ◌/◌, None, Some, false, length, true, vec_items, is_some};
ghost use Rattle.std.specs.Prelude.{IfErr, IfOk, IfSome, IsSome};
ghost use Rattle.text_spelling.specs.Words.{byte_read, byte_told, content_read, hex_digit, hex_read, is_hidden};
ghost use Rattle.text_spelling.specs.Words.{is_visible, lower_digit, pair_value, weighed};

use crate::hex_blocks::fill_blocks;
use std::alloc::{AllocError, Global};

/// The value of a lower-case hexadecimal digit.
pub fn lower_digit(digit: u8) -> Option<u8>
    ensures bound { IfSome result (λ n. n < 16) }
    ensures value { result ≡ lower_digit digit }
{
    match digit {
        b'0'..=b'9' => Some(digit - b'0'),
        b'a'..=b'f' => Some(digit - b'a' + 10),
        _ => None,
    }
}

/// Sixteen times the value of each byte that is a hexadecimal digit of either case; 256 of one that isn't.
const FIRST: [u16; 256] = [
    256, 256, 256, 256, 256, 256, 256, 256, 256, 256, 256, 256, 256, 256, 256, 256, 256, 256, 256,
    256, 256, 256, 256, 256, 256, 256, 256, 256, 256, 256, 256, 256, 256, 256, 256, 256, 256, 256,
    256, 256, 256, 256, 256, 256, 256, 256, 256, 256, 0, 16, 32, 48, 64, 80, 96, 112, 128, 144,
    256, 256, 256, 256, 256, 256, 256, 160, 176, 192, 208, 224, 240, 256, 256, 256, 256, 256, 256,
    256, 256, 256, 256, 256, 256, 256, 256, 256, 256, 256, 256, 256, 256, 256, 256, 256, 256, 256,
    256, 160, 176, 192, 208, 224, 240, 256, 256, 256, 256, 256, 256, 256, 256, 256, 256, 256, 256,
    256, 256, 256, 256, 256, 256, 256, 256, 256, 256, 256, 256, 256, 256, 256, 256, 256, 256, 256,
    256, 256, 256, 256, 256, 256, 256, 256, 256, 256, 256, 256, 256, 256, 256, 256, 256, 256, 256,
    256, 256, 256, 256, 256, 256, 256, 256, 256, 256, 256, 256, 256, 256, 256, 256, 256, 256, 256,
    256, 256, 256, 256, 256, 256, 256, 256, 256, 256, 256, 256, 256, 256, 256, 256, 256, 256, 256,
    256, 256, 256, 256, 256, 256, 256, 256, 256, 256, 256, 256, 256, 256, 256, 256, 256, 256, 256,
    256, 256, 256, 256, 256, 256, 256, 256, 256, 256, 256, 256, 256, 256, 256, 256, 256, 256, 256,
    256, 256, 256, 256, 256, 256, 256, 256, 256, 256, 256, 256, 256, 256, 256, 256, 256, 256, 256,
    256, 256, 256, 256, 256, 256, 256, 256,
];

/// The value of each byte that is a hexadecimal digit of either case; 256 of one that isn't.
const SECOND: [u16; 256] = [
    256, 256, 256, 256, 256, 256, 256, 256, 256, 256, 256, 256, 256, 256, 256, 256, 256, 256, 256,
    256, 256, 256, 256, 256, 256, 256, 256, 256, 256, 256, 256, 256, 256, 256, 256, 256, 256, 256,
    256, 256, 256, 256, 256, 256, 256, 256, 256, 256, 0, 1, 2, 3, 4, 5, 6, 7, 8, 9, 256, 256, 256,
    256, 256, 256, 256, 10, 11, 12, 13, 14, 15, 256, 256, 256, 256, 256, 256, 256, 256, 256, 256,
    256, 256, 256, 256, 256, 256, 256, 256, 256, 256, 256, 256, 256, 256, 256, 256, 10, 11, 12, 13,
    14, 15, 256, 256, 256, 256, 256, 256, 256, 256, 256, 256, 256, 256, 256, 256, 256, 256, 256,
    256, 256, 256, 256, 256, 256, 256, 256, 256, 256, 256, 256, 256, 256, 256, 256, 256, 256, 256,
    256, 256, 256, 256, 256, 256, 256, 256, 256, 256, 256, 256, 256, 256, 256, 256, 256, 256, 256,
    256, 256, 256, 256, 256, 256, 256, 256, 256, 256, 256, 256, 256, 256, 256, 256, 256, 256, 256,
    256, 256, 256, 256, 256, 256, 256, 256, 256, 256, 256, 256, 256, 256, 256, 256, 256, 256, 256,
    256, 256, 256, 256, 256, 256, 256, 256, 256, 256, 256, 256, 256, 256, 256, 256, 256, 256, 256,
    256, 256, 256, 256, 256, 256, 256, 256, 256, 256, 256, 256, 256, 256, 256, 256, 256, 256, 256,
    256, 256, 256, 256, 256, 256, 256, 256, 256, 256, 256, 256, 256, 256, 256, 256, 256, 256, 256,
    256, 256, 256,
];

/// What a byte gives as the first digit of two.
fn first_value(digit: u8) -> u16
    ensures { result ≡ weighed 16 (hex_digit digit) }
{
    // A table takes a fifteenth of the time of comparisons, which no processor foresees.
    FIRST[usize::from(digit)]
}

/// What a byte gives as the second digit of two.
fn second_value(digit: u8) -> u16
    ensures { result ≡ weighed 1 (hex_digit digit) }
{
    SECOND[usize::from(digit)]
}

/// The byte of two hexadecimal digits, or 256 or more where one of them is none.
fn told_pair(high: u8, low: u8) -> u16
    ensures { byte_told result ≡ pair_value (hex_digit high) (hex_digit low) }
{
    first_value(high) | second_value(low)
}

/// The byte of two hexadecimal digits.
fn pair(high: u8, low: u8) -> Option<u8>
    ensures { result ≡ pair_value (hex_digit high) (hex_digit low) }
{
    let told = told_pair(high, low);
    if told < 256 { Some(told as u8) } else { None }
}

/// A byte in two hexadecimal digits.
pub fn byte(word: &[u8]) -> Option<u8>
    ensures { result ≡ byte_read word.now }
{
    match word {
        [high, low] => pair(*high, *low),
        _ => None,
    }
}

/// Whether a word is bytes in two hexadecimal digits each.
fn is_hex(word: &[u8]) -> bool
    ensures { result ≡ is_some (hex_read word.now) }
{
    let mut rest = word;
    while let [high, low, more @ ..] = rest {
        match pair(*high, *low) {
            Some(_) => rest = more,
            None => return false,
        }
    }
    rest.is_empty()
}

/// Whether a word is the bytes of a stream: hexadecimal, or `-` for none.
pub fn is_content(word: &[u8]) -> bool
    ensures { result ≡ is_some (content_read word.now) }
{
    match word {
        [] => false,
        [b'-'] => true,
        _ => is_hex(word),
    }
}

/// Fills a buffer of half as many bytes as a word has with those that it spells in two hexadecimal digits each, and
/// says whether it spells bytes.
fn fill_hex(buffer: &mut [u8], word: &[u8]) -> bool
    requires { length buffer.old ≡ length word.now / 2 }
    ensures found { result ≡ true → hex_read word.now ≡ Some buffer.new }
    ensures none { result ≡ false → hex_read word.now ≡ None }
{
    let Some(mut filled) = fill_blocks(buffer, word) else {
        return false;
    };
    // The bits of all bytes together, 256 or more once there was no digit. A way out of the loop at each byte takes
    // longer.
    let mut bits: u16 = 0;
    let mut rest = &word[2 * filled..];
    while let [high, low, more @ ..] = rest {
        let told = told_pair(*high, *low);
        bits |= told;
        buffer[filled] = (told % 256) as u8;
        filled += 1;
        rest = more;
    }
    if bits >= 256 {
        return false;
    }
    rest.is_empty()
}

/// Bytes in two hexadecimal digits each.
fn hex(alloc: Global, word: &[u8]) -> Result<Option<Vec<u8>>, AllocError>
    ensures { IfOk result (λ bytes. option_map vec_items bytes ≡ hex_read word.now) }
{
    // A place to write to is known without a test for room, which a push would make for each byte.
    let mut bytes = vec![in alloc; 0; word.len() / 2]?;
    if fill_hex(bytes.as_mut_slice(), word) {
        Ok(Some(bytes))
    } else {
        Ok(None)
    }
}

/// The bytes of a stream: hexadecimal, or `-` for none. Want of memory is told of a word that spells them.
pub fn content(alloc: Global, word: &[u8]) -> Result<Option<Vec<u8>>, AllocError>
    ensures read { IfOk result (λ bytes. option_map vec_items bytes ≡ content_read word.now) }
    ensures within { IfErr result (λ _. IsSome (content_read word.now)) }
{
    match word {
        [] => Ok(None),
        [b'-'] => Ok(Some(Vec::new(alloc))),
        _ => match hex(alloc, word) {
            Ok(bytes) => Ok(bytes),
            // Memory was asked for before it was known whether the word spells something, so only where it was refused
            // is the word gone over a second time, to tell want of memory of a word within the grammar alone.
            Err(AllocError) => {
                if is_content(word) {
                    Err(AllocError)
                } else {
                    Ok(None)
                }
            }
        },
    }
}

/// Leaves the bytes of a stream, hexadecimal or `-` for none, in a buffer, and says whether a word spells some.
///
/// Refused: want of memory, and then the buffer may have any bytes.
pub fn read_content(buffer: &mut Vec<u8>, word: &[u8]) -> Result<bool, AllocError>
    ensures found { IfOk result (λ is. is ≡ true → content_read word.now ≡ Some buffer.new.items) }
    ensures none { IfOk result (λ is. is ≡ false → content_read word.now ≡ None) }
{
    buffer.clear();
    match word {
        [] => Ok(false),
        [b'-'] => Ok(true),
        _ => {
            buffer.resize(word.len() / 2, 0)?;
            Ok(fill_hex(buffer.as_mut_slice(), word))
        }
    }
}

/// Whether a byte ends a word or can't be seen.
pub fn is_hidden(byte: u8) -> bool
    ensures { result ≡ is_hidden byte }
{
    byte <= 32 || byte == 127
}

/// Whether a byte is printable ASCII, and no space.
pub fn is_visible(byte: u8) -> bool
    ensures { result ≡ is_visible byte }
{
    33 <= byte && byte <= 126
}
