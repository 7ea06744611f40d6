//! Tables as texts, a row a line: a text costs the same to prove however many rows it has.

use std::alloc::Global;
use std::process::Abort;
use std::str::SplitWhitespace;

/// The next word of a row, and none at its end.
pub(crate) fn word<'a>(words: &mut SplitWhitespace<'a>) -> &'a str {
    words.next().unwrap_or("")
}

/// A number, and 0xFFFFFFFF for `-`.
pub(crate) fn number(text: &str) -> u32 {
    let mut number: u32 = 0;
    for digit in text.as_bytes() {
        number = if *digit == b'-' {
            u32::MAX
        } else {
            with_digit(number, *digit)
        };
    }
    number
}

fn with_digit(number: u32, digit: u8) -> u32 {
    number
        .saturating_mul(10)
        .saturating_add(u32::from(value(digit)))
}

/// Numbers with commas between, and none of an empty text.
pub(crate) fn numbers(rt: &impl Abort, alloc: Global, text: &str) -> Vec<u32> {
    let mut numbers = Vec::new(alloc);
    for part in text.split(',') {
        if !part.is_empty() {
            numbers.push(number(part)).expect(rt, "memory");
        }
    }
    numbers
}

/// Whether numbers are those of a text.
pub(crate) fn are_numbers(rt: &impl Abort, alloc: Global, told: &[u32], text: &str) -> bool {
    numbers(rt, alloc, text).as_slice() == told
}

/// Whether bytes are all the same one.
pub(crate) fn are_all(bytes: &[u8], byte: u8) -> bool {
    for item in bytes {
        if *item != byte {
            return false;
        }
    }
    true
}

/// Bytes in hexadecimal with commas between parts: `8*00` for a byte that stands there eight times.
pub(crate) fn spelled(rt: &impl Abort, alloc: Global, text: &str) -> Vec<u8> {
    let mut bytes = Vec::new(alloc);
    for part in text.split(',') {
        push_part(rt, &mut bytes, part);
    }
    bytes
}

/// Whether bytes are those that a text spells.
pub(crate) fn are_spelled(rt: &impl Abort, alloc: Global, told: &[u8], text: &str) -> bool {
    spelled(rt, alloc, text).as_slice() == told
}

fn push_part(rt: &impl Abort, bytes: &mut Vec<u8>, part: &str) {
    match part.split_once("*") {
        Some((count, unit)) => push_often(rt, bytes, number(count), unit),
        None => push_digits(rt, bytes, part),
    }
}

fn push_often(rt: &impl Abort, bytes: &mut Vec<u8>, count: u32, unit: &str) {
    for _ in 0..count {
        push_digits(rt, bytes, unit);
    }
}

fn push_digits(rt: &impl Abort, bytes: &mut Vec<u8>, digits: &str) {
    let mut high = None;
    for digit in digits.as_bytes() {
        match high {
            None => high = Some(value(*digit)),
            Some(sixteens) => {
                push(
                    rt,
                    bytes,
                    value(*digit).saturating_add(sixteens.saturating_mul(16)),
                );
                high = None;
            }
        }
    }
}

fn push(rt: &impl Abort, bytes: &mut Vec<u8>, byte: u8) {
    bytes.push(byte).expect(rt, "memory");
}

fn value(digit: u8) -> u8 {
    if digit < b'a' {
        digit.saturating_sub(b'0')
    } else {
        digit.saturating_sub(b'a' - 10)
    }
}
