//! Words of rows.

use std::str::SplitWhitespace;
use text_words::words;

/// What stands before a mark, and what behind it, which is nothing where there is no such mark.
pub(crate) fn halves<'a>(text: &'a str, mark: &str) -> (&'a str, &'a str) {
    match text.split_once(mark) {
        Some(halves) => halves,
        None => (text, ""),
    }
}

/// The next word of a row, and none at its end.
pub(crate) fn word<'a>(words: &mut SplitWhitespace<'a>) -> &'a str {
    words.next().unwrap_or("")
}

/// The number that a word spells, and none that a container gives where it spells none.
pub(crate) fn number(word: &str) -> u32 {
    words::number(word.as_bytes()).unwrap_or(u32::MAX)
}

/// Whether the next two words are this name and this number.
pub(crate) fn names(words: &mut SplitWhitespace<'_>, name: &str, n: u32) -> bool {
    word(words) == name && number(word(words)) == n
}

/// Whether the next word is this count.
pub(crate) fn counts(words: &mut SplitWhitespace<'_>, count: usize) -> bool {
    number(word(words)) as usize == count
}
