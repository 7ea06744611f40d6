//! A drawing in a server.

ghost use Rattle.object_core.specs.Content.{drawing};
ghost use Rattle.object_core.specs.Edits.{add, edited, raise, remove};
ghost use Rattle.object_core.specs.Objects.{Refuses};
ghost use Rattle.object_kinds.specs.Drawn.{shape_told};
ghost use Rattle.std.specs.Prelude.{[], ◌≡◌, IfErr, Ok, OnErr, OnOk};

use crate::drawing_edits::{self, DrawingEdit};
use crate::shapes::Figure;
use crate::{canvas, order, stored};
use object_core::embedded::Embedded;
use object_core::fault::EmbedFault;
use object_core::tally::Tally;
use object_core::{ClassId, Menus, Streams, classes, kind_menus, sole_stream, stream_names};
use std::alloc::Global;
use std::marker::Model;

/// A drawing.
pub struct Drawing {
    figures: Vec<Figure>,
    tally: Tally,
}

impl Model for Drawing {
    ghost use Rattle.std.specs.Prelude.{List, ◌≡◌, true};
    ghost use Rattle.object_core.specs.Content.{Shape, drawing, is_content};
    ghost use Rattle.object_kinds.specs.Drawn.{shapes_told};

    ghost Value = { List Shape };

    ghost view = { λ d. shapes_told d.figures.items };

    ghost invariant = { λ d. is_content (drawing (shapes_told d.figures.items)) ≡ true };
}

impl Drop for Drawing {
    fn drop(self) {
        self.tally.raise();
        let Drawing {
            figures: _,
            tally: _,
        } = self;
    }
}

impl Drawing {
    /// A drawing without shapes, which the tally counts once it is dropped.
    pub fn new(alloc: Global, tally: Tally) -> Drawing
        ensures { result ≡ [] }
    {
        Drawing {
            figures: Vec::new(alloc),
            tally,
        }
    }

    fn add(&mut self, figure: Figure) -> Result<(), EmbedFault>
        ensures edited { OnOk result (edited (add (shape_told figure)) (drawing self.old) ≡ Ok (drawing self.new)) }
        ensures refused { IfErr result (Refuses (edited (add (shape_told figure)) (drawing self.old))) }
        ensures kept { OnErr result (self.new ≡ self.old) }
    {
        if !figure.is_in_range() {
            return Err(EmbedFault::BadEdit);
        }
        if self.figures.len() >= stored::SIZE {
            return Err(EmbedFault::TooBig);
        }
        self.figures.push(figure)?;
        Ok(())
    }

    fn remove(&mut self, number: u32) -> Result<(), EmbedFault>
        ensures edited { OnOk result (edited (remove number) (drawing self.old) ≡ Ok (drawing self.new)) }
        ensures refused { IfErr result (Refuses (edited (remove number) (drawing self.old))) }
        ensures kept { OnErr result (self.new ≡ self.old) }
    {
        let number = number as usize;
        if number == 0 || number > self.figures.len() {
            return Err(EmbedFault::BadEdit);
        }
        order::remove(&mut self.figures, number);
        Ok(())
    }

    fn raise(&mut self, number: u32) -> Result<(), EmbedFault>
        ensures edited { OnOk result (edited (raise number) (drawing self.old) ≡ Ok (drawing self.new)) }
        ensures refused { IfErr result (Refuses (edited (raise number) (drawing self.old))) }
        ensures kept { OnErr result (self.new ≡ self.old) }
    {
        let number = number as usize;
        if number == 0 || number > self.figures.len() {
            return Err(EmbedFault::BadEdit);
        }
        order::raise(&mut self.figures, number);
        Ok(())
    }
}

impl Embedded for Drawing {
    ghost use Rattle.object_core.specs.Content.{drawing};

    ghost content = { λ shapes. drawing shapes };

    fn class(&self) -> ClassId {
        classes::drawing()
    }

    fn init(&mut self) {
        self.figures.clear();
    }

    fn load(&mut self, alloc: Global, streams: &Streams) -> Result<(), EmbedFault> {
        let Some(bytes) = sole_stream::bytes(streams, &stream_names::drawing()) else {
            return Err(EmbedFault::BadContent);
        };
        self.figures = stored::read_all(alloc, bytes)?;
        Ok(())
    }

    fn edit(&mut self, alloc: Global, bytes: &[u8]) -> Result<(), EmbedFault> {
        match drawing_edits::read(bytes) {
            Some(DrawingEdit::Add(figure)) => self.add(figure),
            Some(DrawingEdit::Remove(number)) => self.remove(number),
            Some(DrawingEdit::Raise(number)) => self.raise(number),
            None => Err(EmbedFault::BadEdit),
        }
    }

    fn save(&self, alloc: Global) -> Result<Streams, EmbedFault> {
        let bytes = stored::spell_all(alloc, &self.figures)?;
        sole_stream::streams(alloc, stream_names::drawing(), bytes)
    }

    fn render(&self, alloc: Global) -> Result<Vec<u8>, EmbedFault> {
        let picture = canvas::picture(alloc, &self.figures)?;
        Ok(picture)
    }

    fn menus(&self) -> Menus {
        kind_menus::drawing()
    }

    fn border(&self) -> [u16; 4] {
        [3, 0, 0, 0]
    }
}
