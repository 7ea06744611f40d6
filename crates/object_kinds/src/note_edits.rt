//! Edits of a note, as they are spelled.

ghost use Rattle.object_core.specs.Kinds.{Note};
ghost use Rattle.object_core.specs.Reading.{edit_of, place_and_count, place_and_text};
ghost use Rattle.text_words.specs.Words.{words};
ghost use Rattle.object_kinds.specs.Noted.{edit_told};
ghost use Rattle.std.specs.Option.{option_map};
ghost use Rattle.std.specs.Prelude.{◌≡◌};

use text_words::words::{cut, number};

/// An edit of a note.
#[derive(Clone, Copy)]
pub enum NoteEdit<'a> {
    /// A text at a place.
    Insert(u32, &'a [u8]),
    /// So many characters from a place on.
    Delete(u32, u32),
}

/// The edit that bytes spell, if any.
pub fn read(bytes: &[u8]) -> Option<NoteEdit<'_>>
    ensures { option_map edit_told result ≡ edit_of Note bytes.now }
{
    let (letter, rest) = cut(bytes, b' ');
    let rest = rest?;
    match letter {
        [b'i'] => insertion(rest),
        [b'd'] => deletion(rest),
        _ => None,
    }
}

#[tactic(auto, using(object_core::proofs::Behind::readings))]
fn insertion(bytes: &[u8]) -> Option<NoteEdit<'_>>
    ensures { option_map edit_told result ≡ place_and_text (words bytes.now) }
{
    let (place, text) = cut(bytes, b' ');
    let text = text?;
    Some(NoteEdit::Insert(number(place)?, text))
}

#[tactic(auto, using(object_core::proofs::Behind::readings))]
fn deletion(bytes: &[u8]) -> Option<NoteEdit<'_>>
    ensures { option_map edit_told result ≡ place_and_count (words bytes.now) }
{
    let (place, rest) = cut(bytes, b' ');
    let (count, None) = cut(rest?, b' ') else {
        return None;
    };
    Some(NoteEdit::Delete(number(place)?, number(count)?))
}
