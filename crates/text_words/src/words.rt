//! Words and numbers of texts.

ghost use Rattle.text_words.specs.Words.{digits_read, further, number_read, pieces};
ghost use Rattle.std.specs.Option.{option_copied};
ghost use Rattle.std.specs.Prelude.{◌≡◌, ◌<◌, [], ◌∷◌, length, IfSome, MatchOption};

use memchr::memchr;
use std::marker::Model;

/// The bytes before the first such byte, and those behind it, where there is one.
pub fn cut(bytes: &[u8], at: u8) -> (&[u8], Option<&[u8]>)
    ensures pieces { pieces at bytes.now ≡ result.0.now ∷ further at (option_copied result.1) }
    ensures shorter { IfSome result.1 (λ rest. length rest.now < length bytes.now) }
{
    match memchr(at, bytes) {
        Some(i) => (&bytes[..i], Some(&bytes[i + 1..])),
        None => (bytes, None),
    }
}

/// The pieces of a text that is cut at each such byte, the first of them first.
#[derive(Drop)]
pub struct Pieces<'a> {
    at: u8,
    rest: Option<&'a [u8]>,
}

impl<'a> Model for Pieces<'a> {
    ghost use Rattle.std.specs.Prelude.{List, ℕ};
    ghost use Rattle.std.specs.Option.{option_copied};
    ghost use Rattle.text_words.specs.Words.{further};

    ghost Value = { List (List ℕ) };

    ghost view = { λ p. further p.at (option_copied p.rest) };
}

impl<'a> Pieces<'a> {
    /// All pieces of a text.
    pub fn new(text: &'a [u8], at: u8) -> Pieces<'a>
        ensures { result ≡ pieces at text.now }
    {
        Pieces {
            at,
            rest: Some(text),
        }
    }

    /// The next piece, if one is left.
    pub fn next_piece(&mut self) -> Option<&'a [u8]>
        ensures { MatchOption result ((self.old ≡ []) × (self.new ≡ [])) (λ piece. self.old ≡ piece.now ∷ self.new) }
    {
        let (piece, rest) = cut(self.rest?, self.at);
        self.rest = rest;
        Some(piece)
    }
}

/// The number of 32 bits that these digits are.
fn digits(word: &[u8]) -> Option<u32>
    ensures { result ≡ digits_read 0 word.now }
{
    let mut number: u32 = 0;
    for digit in word {
        if !digit.is_ascii_digit() {
            return None;
        }
        let more = 10 * u64::from(number) + u64::from(*digit - b'0');
        if more > u64::from(u32::MAX) {
            return None;
        }
        number = more as u32;
    }
    Some(number)
}

/// A decimal number of 32 bits without leading zeros.
pub fn number(word: &[u8]) -> Option<u32>
    ensures { result ≡ number_read word.now }
{
    match word {
        [] => None,
        [b'0', _, ..] => None,
        _ => digits(word),
    }
}
