//! Tables as texts, a row a line: a text costs the same to prove however many rows it has.

use std::alloc::Global;
use std::process::Abort;
use std::str::SplitWhitespace;

/// The next word of a row, and none at its end.
pub(crate) fn word<'a>(words: &mut SplitWhitespace<'a>) -> &'a str {
    words.next().unwrap_or("")
}

/// Bytes in hexadecimal, with commas between parts. A point stands for none.
pub(crate) fn spelled(rt: &impl Abort, alloc: Global, text: &str) -> Vec<u8> {
    let mut bytes = Vec::new(alloc);
    for part in text.split(',') {
        push_digits(rt, &mut bytes, part);
    }
    bytes
}

fn push_digits(rt: &impl Abort, bytes: &mut Vec<u8>, digits: &str) {
    let mut high = None;
    for digit in digits.as_bytes() {
        match high {
            None => high = Some(value(*digit)),
            Some(sixteens) => {
                push(
                    rt,
                    bytes,
                    value(*digit).saturating_add(sixteens.saturating_mul(16)),
                );
                high = None;
            }
        }
    }
}

fn push(rt: &impl Abort, bytes: &mut Vec<u8>, byte: u8) {
    bytes.push(byte).expect(rt, "memory");
}

fn value(digit: u8) -> u8 {
    if digit < b'a' {
        digit.saturating_sub(b'0')
    } else {
        digit.saturating_sub(b'a' - 10)
    }
}
