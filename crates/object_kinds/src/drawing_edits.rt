//! Edits of a drawing, as they are spelled.

ghost use Rattle.object_core.specs.Kinds.{Drawing};
ghost use Rattle.object_core.specs.Edits.{Edit};
ghost use Rattle.object_core.specs.Reading.{edit_of, one_number};
ghost use Rattle.text_words.specs.Words.{words};
ghost use Rattle.object_kinds.specs.Drawn.{edit_told};
ghost use Rattle.std.specs.Option.{option_map};
ghost use Rattle.std.specs.Prelude.{◌≡◌, ℕ};

use crate::shapes::{self, Figure};
use text_words::words::{cut, number};

/// An edit of a drawing.
#[derive(Clone, Copy)]
pub enum DrawingEdit {
    /// A shape more.
    Add(Figure),
    /// The shape of this number is taken out. The first one has number 1.
    Remove(u32),
    /// The shape of this number is moved behind all others.
    Raise(u32),
}

/// The edit that bytes spell, if any.
pub fn read(bytes: &[u8]) -> Option<DrawingEdit>
    ensures { option_map edit_told result ≡ edit_of Drawing bytes.now }
{
    let (letter, rest) = cut(bytes, b' ');
    match letter {
        [b'r'] => Some(DrawingEdit::Remove(sole_number(rest?)?)),
        [b'u'] => Some(DrawingEdit::Raise(sole_number(rest?)?)),
        _ => Some(DrawingEdit::Add(shapes::read(bytes)?)),
    }
}

/// The number that a text is, if it is just one.
#[tactic(auto, using(crate::proofs::Behind::readings))]
fn sole_number(text: &[u8]) -> Option<u32>
    ensures { (made : ℕ → Edit) → option_map made result ≡ one_number made (words text.now) }
{
    match cut(text, b' ') {
        (word, None) => number(word),
        _ => None,
    }
}
