//! A table in a server.

ghost use Rattle.object_core.specs.Content.{table};
ghost use Rattle.object_core.specs.Edits.{clear, edited, set};
ghost use Rattle.object_core.specs.Objects.{Refuses};
ghost use Rattle.object_kinds.specs.Placed.{named};
ghost use Rattle.std.specs.Prelude.{[], ◌≡◌, IfErr, Ok, OnErr, OnOk};

use crate::cell_name::CellName;
use crate::table_edits::{self, TableEdit};
use crate::{cell_texts, entries, table_lines};
use object_core::embedded::Embedded;
use object_core::fault::EmbedFault;
use object_core::tally::Tally;
use object_core::{ClassId, Menus, Streams, classes, kind_menus, sole_stream, stream_names};
use object_state::are_printable;
use std::alloc::Global;
use std::collections::BTreeMap;
use std::marker::Model;

/// A table: its texts under the places of their cells.
pub struct Table {
    cells: BTreeMap<u16, Vec<u8>>,
    tally: Tally,
}

impl Model for Table {
    ghost use Rattle.std.specs.Prelude.{List, ℕ, ◌≡◌, true};
    ghost use Rattle.object_core.specs.Content.{Cell, is_content, table};
    ghost use Rattle.object_kinds.specs.Placed.{entries_at};

    ghost Value = { List (Cell × List ℕ) };

    ghost view = { λ t. entries_at t.cells.entries };

    ghost invariant = { λ t. is_content (table (entries_at t.cells.entries)) ≡ true };
}

impl Drop for Table {
    fn drop(self) {
        self.tally.raise();
        let Table { cells: _, tally: _ } = self;
    }
}

impl Table {
    /// A table whose cells have no texts, which the tally counts once it is dropped.
    pub fn new(alloc: Global, tally: Tally) -> Table
        ensures { result ≡ [] }
    {
        Table {
            cells: BTreeMap::new(alloc),
            tally,
        }
    }

    fn set(&mut self, alloc: Global, cell: CellName, text: &[u8]) -> Result<(), EmbedFault>
        ensures edited { OnOk result (edited (set (named cell) text.now) (table self.old) ≡ Ok (table self.new)) }
        ensures refused { IfErr result (Refuses (edited (set (named cell) text.now) (table self.old))) }
        ensures kept { OnErr result (self.new ≡ self.old) }
    {
        let Some(place) = cell.place() else {
            return Err(EmbedFault::BadEdit);
        };
        if text.is_empty() || !are_printable(text) {
            return Err(EmbedFault::BadEdit);
        }
        if text.len() > cell_texts::SIZE {
            return Err(EmbedFault::TooBig);
        }
        self.cells.insert(place, Vec::from_slice(alloc, text)?)?;
        Ok(())
    }

    fn clear(&mut self, cell: CellName) -> Result<(), EmbedFault>
        ensures edited { OnOk result (edited (clear (named cell)) (table self.old) ≡ Ok (table self.new)) }
        ensures refused { IfErr result (Refuses (edited (clear (named cell)) (table self.old))) }
        ensures kept { OnErr result (self.new ≡ self.old) }
    {
        let Some(place) = cell.place() else {
            return Err(EmbedFault::BadEdit);
        };
        match self.cells.remove(&place) {
            Some(_) => Ok(()),
            None => Err(EmbedFault::BadEdit),
        }
    }
}

impl Embedded for Table {
    ghost use Rattle.object_core.specs.Content.{table};

    ghost content = { λ entries. table entries };

    fn class(&self) -> ClassId {
        classes::table()
    }

    fn init(&mut self) {
        self.cells.clear();
    }

    fn load(&mut self, alloc: Global, streams: &Streams) -> Result<(), EmbedFault> {
        let Some(bytes) = sole_stream::bytes(streams, &stream_names::table()) else {
            return Err(EmbedFault::BadContent);
        };
        self.cells = entries::read(alloc, bytes)?;
        Ok(())
    }

    fn edit(&mut self, alloc: Global, bytes: &[u8]) -> Result<(), EmbedFault> {
        match table_edits::read(bytes) {
            Some(TableEdit::Set(cell, text)) => self.set(alloc, cell, text),
            Some(TableEdit::Clear(cell)) => self.clear(cell),
            None => Err(EmbedFault::BadEdit),
        }
    }

    fn save(&self, alloc: Global) -> Result<Streams, EmbedFault> {
        let bytes = table_lines::stream(alloc, &self.cells)?;
        sole_stream::streams(alloc, stream_names::table(), bytes)
    }

    fn render(&self, alloc: Global) -> Result<Vec<u8>, EmbedFault> {
        Ok(table_lines::picture(alloc, &self.cells)?)
    }

    fn menus(&self) -> Menus {
        kind_menus::table()
    }

    fn border(&self) -> [u16; 4] {
        [2, 1, 0, 0]
    }
}
