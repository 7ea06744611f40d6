//! Names of cells.

ghost use Rattle.object_core.specs.Reading.{cell_of};
ghost use Rattle.object_kinds.specs.Placed.{named, place_of};
ghost use Rattle.std.specs.Option.{option_map};
ghost use Rattle.std.specs.Prelude.{◌≡◌};

use text_words::words::number;

/// How many columns a table has, A to Z.
pub const COLUMNS: u16 = 26;

/// How many rows a table has.
pub const ROWS: u32 = 99;

/// A cell as a name spells it: its column, from 0 for A, and its row. It may lie outside of a table.
#[derive(Clone, Copy)]
pub struct CellName {
    /// The column.
    pub column: u8,
    /// The row.
    pub row: u32,
}

/// The cell that a word names, if any.
pub fn read(word: &[u8]) -> Option<CellName>
    ensures { option_map named result ≡ cell_of word.now }
{
    let [letter, digits @ ..] = word else {
        return None;
    };
    if *letter < b'A' {
        return None;
    }
    Some(CellName {
        column: *letter - b'A',
        row: number(digits)?,
    })
}

impl CellName {
    ghost use Rattle.std.specs.Prelude.{◌≡◌};
    ghost use Rattle.object_kinds.specs.Placed.{named, place_of};

    /// Its place among all cells of a table, by row and then by column, if it is one of them.
    pub fn place(self) -> Option<u16>
        ensures { result ≡ place_of (named self) }
    {
        if u16::from(self.column) < COLUMNS && 1 <= self.row && self.row <= ROWS {
            Some(COLUMNS * self.row as u16 + u16::from(self.column))
        } else {
            None
        }
    }
}
