//! Edits of a table, as they are spelled.

ghost use Rattle.object_core.specs.Kinds.{Table};
ghost use Rattle.object_core.specs.Reading.{cell_alone, cell_and_text, edit_of};
ghost use Rattle.text_words.specs.Words.{words};
ghost use Rattle.object_kinds.specs.Placed.{edit_told};
ghost use Rattle.std.specs.Option.{option_map};
ghost use Rattle.std.specs.Prelude.{◌≡◌};

use crate::cell_name::{self, CellName};
use text_words::words::cut;

/// An edit of a table.
#[derive(Clone, Copy)]
pub enum TableEdit<'a> {
    /// A text in a cell.
    Set(CellName, &'a [u8]),
    /// A cell without text.
    Clear(CellName),
}

/// The edit that bytes spell, if any.
pub fn read(bytes: &[u8]) -> Option<TableEdit<'_>>
    ensures { option_map edit_told result ≡ edit_of Table bytes.now }
{
    let (letter, rest) = cut(bytes, b' ');
    let rest = rest?;
    match letter {
        [b's'] => setting(rest),
        [b'c'] => clearing(rest),
        _ => None,
    }
}

#[tactic(auto, using(object_core::proofs::Behind::readings))]
fn setting(bytes: &[u8]) -> Option<TableEdit<'_>>
    ensures { option_map edit_told result ≡ cell_and_text (words bytes.now) }
{
    let (name, text) = cut(bytes, b' ');
    let text = text?;
    Some(TableEdit::Set(cell_name::read(name)?, text))
}

#[tactic(auto, using(object_core::proofs::Behind::readings))]
fn clearing(bytes: &[u8]) -> Option<TableEdit<'_>>
    ensures { option_map edit_told result ≡ cell_alone (words bytes.now) }
{
    let (name, None) = cut(bytes, b' ') else {
        return None;
    };
    Some(TableEdit::Clear(cell_name::read(name)?))
}
