//! Words of rows.

use std::str::SplitWhitespace;
use text_words::words;

/// The next word of a row, and none at its end.
pub(crate) fn word<'a>(words: &mut SplitWhitespace<'a>) -> &'a str {
    words.next().unwrap_or("")
}

/// The number that the next word spells, and none that a world gives where it spells none.
pub(crate) fn number(words: &mut SplitWhitespace<'_>) -> u32 {
    words::number(word(words).as_bytes()).unwrap_or(u32::MAX)
}
