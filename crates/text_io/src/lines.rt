//! Texts whose lines ask for one thing each.

ghost use Rattle.text_words.specs.Words.{lines};
ghost use Rattle.std.specs.Prelude.{◌≡◌, ◌<◌, ◌^◌, ◌∷◌, [], Ok, length, IfErr, IfOk, IsSome, MatchOption, ℕ, List};
ghost use Rattle.std.specs.Prelude.{Option};
ghost use Rattle.text_io.specs.Lines.{RefusesText, asking, is_skipped, text_read};

use std::alloc::{AllocError, Global};
use std::marker::Model;
use text_words::words::Pieces;
use thiserror::Error;

/// Why the lines of a text aren't read.
#[derive(Debug, Clone, Copy, Error)]
pub enum SyntaxFault {
    /// A line is outside the grammar.
    #[error("the line is outside the grammar")]
    Bad,
    /// No memory was left.
    #[error("no memory is left")]
    NoMemory,
}

impl SyntaxFault {
    ghost use Rattle.std.specs.Prelude.{◌≡◌};
    ghost use Rattle.text_io.specs.Faults.{syntax_fault_name};

    /// The fault's name, as it is printed.
    pub fn name(&self) -> &'static str
        ensures { result.now ≡ syntax_fault_name self.now }
    {
        match self {
            SyntaxFault::Bad => "Bad",
            SyntaxFault::NoMemory => "NoMemory",
        }
    }
}

/// How the lines of a text are spelled.
pub trait Grammar {
    /// What a line asks for.
    type Line: Drop;

    ghost read: { ℕ → List ℕ → Option Self.Line };

    /// What the line of a number asks for; none where it is outside the grammar. Memory is taken for a line within it.
    fn parse(alloc: Global, number: usize, line: &[u8]) -> Result<Option<Self::Line>, AllocError>
        ensures read { IfOk result (λ asked. asked ≡ read number line.now) }
        ensures within { IfErr result (λ _. IsSome (read number line.now)) };
}

/// Whether a line says nothing: it is empty, or it begins with `#`.
fn is_skipped(line: &[u8]) -> bool
    ensures { result ≡ is_skipped line.now }
{
    match line {
        [] => true,
        [first, ..] => *first == b'#',
    }
}

/// The lines of a text that ask for something, one after another. Empty lines and lines that begin with `#` are
/// skipped.
#[derive(Drop)]
pub struct Lines<'a> {
    left: Pieces<'a>,
    /// How many lines are behind us.
    number: usize,
}

impl<'a> Model for Lines<'a> {
    ghost use Rattle.std.specs.Prelude.{◌+◌, ◌≤◌, ◌^◌, List, ℕ, length};
    ghost use Rattle.text_io.specs.Lines.{asking};

    ghost Value = { List (ℕ × List ℕ) };

    ghost view = { λ l. asking (l.number + 1) l.left };

    ghost invariant = { λ l. l.number + length l.left ≤ 2 ^ 32 };
}

impl<'a> Lines<'a> {
    /// All such lines of a text.
    pub fn new(text: &'a [u8]) -> Lines<'a>
        requires { length text.now < 2 ^ 32 }
        ensures { result ≡ asking 1 (lines text.now) }
    {
        Lines {
            left: Pieces::new(text, b'\n'),
            number: 0,
        }
    }

    /// The next line, if one is left, with its number in the text from 1.
    pub fn next_line(&mut self) -> Option<(usize, &'a [u8])>
        ensures { MatchOption result ((self.old ≡ []) × (self.new ≡ []))
            (λ found. self.old ≡ (found.0, found.1.now) ∷ self.new) }
    {
        while let Some(line) = self.left.next_piece() {
            self.number += 1;
            if !is_skipped(line) {
                return Some((self.number, line));
            }
        }
        None
    }
}

/// What the lines of a text ask for. Empty lines and lines that begin with `#` are skipped.
///
/// Refused: the first line that is outside the grammar (`Bad`), with its number from 1; `NoMemory` with the number of
/// the line at which no memory was left, up to which all lines are within the grammar.
pub fn parse_lines<G: Grammar>(
    alloc: Global,
    text: &[u8],
) -> Result<Vec<G::Line>, (usize, SyntaxFault)>
    requires { length text.now < 2 ^ 32 }
    ensures read { IfOk result (λ asked. text_read G.read text.now ≡ Ok asked.items) }
    ensures refused { IfErr result (RefusesText G.read text.now) }
{
    let mut asked = Vec::new(alloc);
    let mut left = Lines::new(text);
    while let Some((number, line)) = left.next_line() {
        match G::parse(alloc, number, line) {
            Ok(Some(one)) => match asked.push(one) {
                Ok(()) => {}
                Err(_) => return Err((number, SyntaxFault::NoMemory)),
            },
            Ok(None) => return Err((number, SyntaxFault::Bad)),
            Err(_) => return Err((number, SyntaxFault::NoMemory)),
        }
    }
    Ok(asked)
}
