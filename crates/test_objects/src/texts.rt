//! How tests spell bytes: `$` for a line feed, `c{60}` for sixty times `c`, `<ab>{60}` for sixty times `ab`.

use std::alloc::Global;
use std::process::Abort;
use std::str::SplitWhitespace;

/// Bytes that are being spelled.
#[derive(Drop)]
struct Spelling {
    bytes: Vec<u8>,
    /// Where the last group begins.
    group: usize,
    /// Where that begins which braces repeat.
    unit: usize,
    /// The number in braces so far.
    braces: Option<usize>,
}

/// The bytes that a text spells.
pub(crate) fn spelled(rt: &impl Abort, alloc: Global, text: &str) -> Vec<u8> {
    let mut spelling = Spelling {
        bytes: Vec::new(alloc),
        group: 0,
        unit: 0,
        braces: None,
    };
    for c in text.as_bytes() {
        spelling.take(rt, alloc, *c);
    }
    spelling.bytes
}

impl Spelling {
    fn take(&mut self, rt: &impl Abort, alloc: Global, c: u8) {
        match (self.braces, c) {
            (None, b'{') => self.braces = Some(0),
            (None, b'<') => self.group = self.bytes.len(),
            (None, b'>') => self.unit = self.group,
            (None, c) => self.push(rt, c),
            (Some(count), b'}') => self.repeat(rt, alloc, count),
            (Some(count), digit) => self.braces = Some(with_digit(count, digit)),
        }
    }

    fn push(&mut self, rt: &impl Abort, c: u8) {
        self.unit = self.bytes.len();
        let c = if c == b'$' { b'\n' } else { c };
        self.bytes.push(c).expect(rt, "memory");
    }

    /// Braces end: what stands last comes to stand there so often.
    fn repeat(&mut self, rt: &impl Abort, alloc: Global, count: usize) {
        self.braces = None;
        let last = self.bytes.get(self.unit..).unwrap_or(&[]);
        let unit = Vec::from_slice(alloc, last).expect(rt, "memory");
        for _ in 1..count {
            self.bytes.extend_from_slice(&unit).expect(rt, "memory");
        }
    }
}

fn with_digit(count: usize, digit: u8) -> usize {
    let digit = usize::from(digit.saturating_sub(b'0'));
    count.saturating_mul(10).saturating_add(digit)
}

/// What stands before a mark, and what behind it, which is nothing where there is no such mark.
pub(crate) fn halves<'a>(text: &'a str, mark: &str) -> (&'a str, &'a str) {
    match text.split_once(mark) {
        Some(halves) => halves,
        None => (text, ""),
    }
}

/// The next word of a row, and none at its end.
pub(crate) fn word<'a>(words: &mut SplitWhitespace<'a>) -> &'a str {
    words.next().unwrap_or("")
}
