//! A note in a server.

ghost use Rattle.object_core.specs.Edits.{delete, edited, insert};
ghost use Rattle.object_core.specs.Content.{note};
ghost use Rattle.object_core.specs.Objects.{Refuses};
ghost use Rattle.std.specs.Prelude.{[], ◌≡◌, IfErr, Ok, OnErr, OnOk, take};

use crate::note_edits::{self, NoteEdit};
use crate::note_lines::Lines;
use crate::note_text;
use object_core::embedded::Embedded;
use object_core::fault::EmbedFault;
use object_core::picture::push_line;
use object_core::tally::Tally;
use object_core::{ClassId, Menus, Streams, classes, kind_menus, sole_stream, stream_names};
use std::alloc::Global;
use std::marker::Model;

/// The most characters that a note has.
const SIZE: usize = 65_536;

/// How many lines a picture shows.
const PICTURE_LINES: usize = 20;

/// How many characters a picture shows of a line.
const PICTURE_WIDTH: usize = 60;

/// A note.
pub struct Note {
    text: Vec<u8>,
    tally: Tally,
}

impl Model for Note {
    ghost use Rattle.std.specs.Prelude.{List, ℕ, ◌≡◌, true};
    ghost use Rattle.object_core.specs.Content.{is_content, note};

    ghost Value = { List ℕ };

    ghost view = { λ n. n.text.items };

    ghost invariant = { λ n. is_content (note n.text.items) ≡ true };
}

impl Drop for Note {
    fn drop(self) {
        self.tally.raise();
        let Note { text: _, tally: _ } = self;
    }
}

/// What a picture shows of a line.
fn first_part(line: &[u8]) -> &[u8]
    ensures { result.now ≡ take PICTURE_WIDTH line.now }
{
    &line[..line.len().min(PICTURE_WIDTH)]
}

impl Note {
    /// A note without text, which the tally counts once it is dropped.
    pub fn new(alloc: Global, tally: Tally) -> Note
        ensures { result ≡ [] }
    {
        Note {
            text: Vec::new(alloc),
            tally,
        }
    }

    fn insert(&mut self, place: u32, more: &[u8]) -> Result<(), EmbedFault>
        ensures edited { OnOk result (edited (insert place more.now) (note self.old) ≡ Ok (note self.new)) }
        ensures refused { IfErr result (Refuses (edited (insert place more.now) (note self.old))) }
        ensures kept { OnErr result (self.new ≡ self.old) }
    {
        let place = place as usize;
        if more.is_empty() || !note_text::is_note_text(more) || place > self.text.len() {
            return Err(EmbedFault::BadEdit);
        }
        if more.len() > SIZE - self.text.len() {
            return Err(EmbedFault::TooBig);
        }
        note_text::insert(&mut self.text, place, more)?;
        Ok(())
    }

    fn delete(&mut self, place: u32, count: u32) -> Result<(), EmbedFault>
        ensures edited { OnOk result (edited (delete place count) (note self.old) ≡ Ok (note self.new)) }
        ensures refused { IfErr result (Refuses (edited (delete place count) (note self.old))) }
        ensures kept { OnErr result (self.new ≡ self.old) }
    {
        let place = place as usize;
        let count = count as usize;
        if count == 0 || place > self.text.len() || count > self.text.len() - place {
            return Err(EmbedFault::BadEdit);
        }
        note_text::delete(&mut self.text, place, count);
        Ok(())
    }
}

impl Embedded for Note {
    ghost use Rattle.object_core.specs.Content.{note};

    ghost content = { λ text. note text };

    fn class(&self) -> ClassId {
        classes::note()
    }

    fn init(&mut self) {
        self.text.clear();
    }

    fn load(&mut self, alloc: Global, streams: &Streams) -> Result<(), EmbedFault> {
        let Some(bytes) = sole_stream::bytes(streams, &stream_names::note()) else {
            return Err(EmbedFault::BadContent);
        };
        if bytes.len() > SIZE || !note_text::is_note_text(bytes) {
            return Err(EmbedFault::BadContent);
        }
        self.text = Vec::from_slice(alloc, bytes)?;
        Ok(())
    }

    fn edit(&mut self, alloc: Global, bytes: &[u8]) -> Result<(), EmbedFault> {
        match note_edits::read(bytes) {
            Some(NoteEdit::Insert(place, more)) => self.insert(place, more),
            Some(NoteEdit::Delete(place, count)) => self.delete(place, count),
            None => Err(EmbedFault::BadEdit),
        }
    }

    fn save(&self, alloc: Global) -> Result<Streams, EmbedFault> {
        let bytes = Vec::from_slice(alloc, &self.text)?;
        sole_stream::streams(alloc, stream_names::note(), bytes)
    }

    fn render(&self, alloc: Global) -> Result<Vec<u8>, EmbedFault> {
        let mut picture = Vec::new(alloc);
        let mut lines = Lines::new(&self.text);
        for _ in 0..PICTURE_LINES {
            match lines.next_line() {
                Some(line) => push_line(&mut picture, first_part(line))?,
                None => break,
            }
        }
        Ok(picture)
    }

    fn menus(&self) -> Menus {
        kind_menus::note()
    }

    fn border(&self) -> [u16; 4] {
        [0, 1, 0, 0]
    }
}
