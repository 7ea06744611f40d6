//! The lines of a text.

ghost use Rattle.object_core.specs.Pictures.{text_lines};
ghost use Rattle.std.specs.Prelude.{[], ◌∷◌, ◌≡◌, MatchOption};

use std::marker::Model;
use text_words::words::cut;

/// The lines of a text, the first of them first. A line feed ends a line; a last one needs none unless it is empty.
#[derive(Drop)]
pub struct Lines<'a> {
    rest: &'a [u8],
}

impl<'a> Model for Lines<'a> {
    ghost use Rattle.std.specs.Prelude.{List, ℕ};
    ghost use Rattle.object_core.specs.Pictures.{text_lines};

    ghost Value = { List (List ℕ) };

    ghost view = { λ l. text_lines l.rest.now };
}

impl<'a> Lines<'a> {
    /// All lines of a text.
    pub fn new(text: &'a [u8]) -> Lines<'a>
        ensures { result ≡ text_lines text.now }
    {
        Lines { rest: text }
    }

    /// The next line, if one is left.
    pub fn next_line(&mut self) -> Option<&'a [u8]>
        ensures { MatchOption result ((self.old ≡ []) × (self.new ≡ [])) (λ line. self.old ≡ line.now ∷ self.new) }
    {
        if self.rest.is_empty() {
            return None;
        }
        let (line, rest) = cut(self.rest, b'\n');
        self.rest = match rest {
            Some(rest) => rest,
            None => &[],
        };
        Some(line)
    }
}
