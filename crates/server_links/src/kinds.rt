//! The objects that calls want, by their classes.

ghost use Rattle.object_core.specs.Kinds as kinds;
ghost use Rattle.server_links.specs.Served.{IsKindOf};
ghost use Rattle.server_model.specs.Server.{is_class};
ghost use Rattle.std.specs.Prelude.{◌≡◌};

use object_core::classes;
use object_core::tally::Tally;
use object_kinds::drawing::Drawing;
use object_kinds::note::Note;
use object_kinds::table::Table;
use std::alloc::{AllocError, Global};
use tree_values::class_id::ClassId;

/// The kinds of objects.
#[derive(Clone, Copy)]
pub(crate) enum Kind {
    Note,
    Table,
    Drawing,
    /// None of the three.
    Other,
}

fn is_note(class: &ClassId) -> bool
    ensures { result ≡ is_class kinds.Note class.now }
{
    classes::note() == *class
}

fn is_table(class: &ClassId) -> bool
    ensures { result ≡ is_class kinds.Table class.now }
{
    classes::table() == *class
}

fn is_drawing(class: &ClassId) -> bool
    ensures { result ≡ is_class kinds.Drawing class.now }
{
    classes::drawing() == *class
}

/// The kind of a class.
pub(crate) fn kind_of_class(class: &ClassId) -> Kind
    ensures { IsKindOf result class.now }
{
    if is_note(class) {
        return Kind::Note;
    }
    if is_table(class) {
        return Kind::Table;
    }
    if is_drawing(class) {
        return Kind::Drawing;
    }
    Kind::Other
}

pub(crate) fn new_note(alloc: Global, tally: &Tally) -> Result<Box<Note>, AllocError> {
    let note = Box::new(alloc, Note::new(alloc, tally.share()?))?;
    Ok(note)
}

pub(crate) fn new_table(alloc: Global, tally: &Tally) -> Result<Box<Table>, AllocError> {
    let table = Box::new(alloc, Table::new(alloc, tally.share()?))?;
    Ok(table)
}

pub(crate) fn new_drawing(alloc: Global, tally: &Tally) -> Result<Box<Drawing>, AllocError> {
    let drawing = Box::new(alloc, Drawing::new(alloc, tally.share()?))?;
    Ok(drawing)
}
