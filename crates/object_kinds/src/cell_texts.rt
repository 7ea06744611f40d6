//! Texts of cells.

ghost use Rattle.object_core.specs.Content.{is_cell_text};
ghost use Rattle.std.specs.Prelude.{◌≡◌};

use object_state::are_printable;

/// The most characters that a cell's text has.
pub const SIZE: usize = 40;

/// Whether a cell may have this text.
pub fn is_cell_text(text: &[u8]) -> bool
    ensures { result ≡ is_cell_text text.now }
{
    !text.is_empty() && text.len() <= SIZE && are_printable(text)
}
