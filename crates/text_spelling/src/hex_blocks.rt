//! Bytes in hexadecimal, sixteen at a time.

ghost use Rattle.std.specs.Option.{option_map};
ghost use Rattle.std.specs.Prelude.{◌≡◌, ◌≤◌, ◌*◌, ◌/◌, ◌++◌, None, Some, cond, drop, length, map, take, IfNone};
ghost use Rattle.std.specs.Prelude.{IfSome};
ghost use Rattle.text_spelling.specs.Blocks.{at_even, at_odd, is_all_below, value_told};
ghost use Rattle.text_spelling.specs.Words.{hex_digit, hex_read};

use std::simd::prelude::*;

/// The characters at even and at odd places among the first thirty-two of a word.
#[inline(always)]
fn split_pairs(word: &[u8]) -> (u8x16, u8x16)
    requires { 32 ≤ length word.now }
    ensures even { result.0 ≡ at_even (take 32 word.now) }
    ensures odd { result.1 ≡ at_odd (take 32 word.now) }
{
    u8x16::from_slice(word).deinterleave(u8x16::from_slice(&word[16..]))
}

/// The value of each byte that is a hexadecimal digit of either case, and 16 or more for one that isn't.
#[inline(always)]
fn values(digits: u8x16) -> u8x16
    ensures { map value_told result ≡ map hex_digit digits }
{
    // A difference below zero comes round to a large number, and numbers and letters are 16 or more where a byte is
    // none of them. So the smaller one is the value, if there is one.
    let number = (digits - u8x16::splat(58)).saturating_sub(u8x16::splat(6)) - u8x16::splat(240);
    // Without the bit by which they differ, lower and upper case are the same.
    let letter = ((digits & u8x16::splat(223)) - u8x16::splat(65)).simd_min(u8x16::splat(245));
    number.simd_min(letter + u8x16::splat(10))
}

/// Whether each lane is below sixteen.
#[inline(always)]
fn are_below_sixteen(lanes: u8x16) -> bool
    ensures { result ≡ is_all_below 16 lanes }
{
    lanes.simd_ge(u8x16::splat(16)).to_bitmask() == 0
}

/// The sixteen bytes that the first thirty-two characters of a word spell, and whether they do spell bytes.
#[inline(always)]
fn read_block(word: &[u8]) -> (u8x16, bool)
    requires { 32 ≤ length word.now }
    ensures long { length result.0 ≡ 16 }
    ensures read { hex_read (take 32 word.now) ≡ cond result.1 (Some result.0) None }
{
    let (first, second) = split_pairs(word);
    let high = values(first);
    let low = values(second);
    (high * u8x16::splat(16) + low, are_below_sixteen(high | low))
}

/// Fills the front of a buffer with the bytes that the whole blocks of thirty-two characters at the front of a word
/// spell, and gives how many bytes that are. None where one of them spells none.
pub(crate) fn fill_blocks(buffer: &mut [u8], word: &[u8]) -> Option<usize>
    requires { length buffer.old ≡ length word.now / 2 }
    ensures long { length buffer.new ≡ length buffer.old }
    ensures within { IfSome result (λ n. 2 * n ≤ length word.now) }
    ensures read { IfSome result (λ n. option_map (λ bytes. take n buffer.new ++ bytes)
        (hex_read (drop (2 * n) word.now)) ≡ hex_read word.now) }
    ensures none { IfNone result (hex_read word.now ≡ None) }
{
    let mut filled = 0;
    let mut rest = word;
    while rest.len() >= 32 {
        let (bytes, is_hex) = read_block(rest);
        // A block is long enough for a way out at each to cost little.
        if !is_hex {
            return None;
        }
        bytes.copy_to_slice(&mut buffer[filled..]);
        filled += 16;
        rest = &rest[32..];
    }
    Some(filled)
}
