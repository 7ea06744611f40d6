//! Words of rows.

use std::str::SplitWhitespace;

/// What stands before a mark, and what behind it, which is nothing where there is no such mark.
pub(crate) fn halves<'a>(text: &'a str, mark: &str) -> (&'a str, &'a str) {
    match text.split_once(mark) {
        Some(halves) => halves,
        None => (text, ""),
    }
}

/// A number in decimal digits.
pub(crate) fn number(text: &str) -> u32 {
    let mut number: u32 = 0;
    for digit in text.as_bytes() {
        number = number
            .saturating_mul(10)
            .saturating_add(u32::from(digit.saturating_sub(b'0')));
    }
    number
}

/// The next word of a row, and none at its end.
pub(crate) fn word<'a>(words: &mut SplitWhitespace<'a>) -> &'a str {
    words.next().unwrap_or("")
}

/// Whether the next words are these numbers.
pub(crate) fn are(words: &mut SplitWhitespace<'_>, numbers: &[u32]) -> bool {
    for of in numbers {
        if number(word(words)) != *of {
            return false;
        }
    }
    true
}
