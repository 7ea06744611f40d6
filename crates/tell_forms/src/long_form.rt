//! Listings in columns, for eyes.

ghost use Rattle.read_outlines.specs.View.{outline_view, part_view};
ghost use Rattle.tell_forms.specs.Classes.{class_name};
ghost use Rattle.tell_forms.specs.Long.{below_rows, child_rows, long_listed, note_text, right_text, storage_row};
ghost use Rattle.tell_forms.specs.Long.{storage_rows, stream_row};
ghost use Rattle.std.specs.Prelude.{◌≡◌, ◌++◌, IfOk, OnOk};
ghost use Rattle.text_words.specs.Spelled.{class_text, name_text};

use crate::class_names::class_name;
use crate::paths::path_bytes;
use crate::stream_names::stream_meaning;
use cfb_names::name::Name;
use read_outlines::outline::{Outline, Part};
use std::alloc::{AllocError, Global};
use text_spelling::writing::push_name;
use tree_values::class_id::ClassId;
use uuid::Uuid;

/// How many columns a size takes.
const COLUMNS: usize = 10;

/// A row for the root and then one for each storage and stream, in the order of `list`: what it is, a stream's size,
/// its path, and in brackets what its class id or its name tells. They stand below the heads of the columns.
pub(crate) fn rows(alloc: Global, outline: &Outline) -> Result<Vec<u8>, AllocError>
    ensures { IfOk result (λ text. text.items ≡ long_listed (outline_view outline.now)) }
{
    let mut text = Vec::from_slice(alloc, b"kind         size  path\n".as_slice())?;
    push_storage(
        &mut text,
        b"root   ".as_slice(),
        b"/".as_slice(),
        &outline.class,
    )?;
    push_below(alloc, &mut text, &[], outline)?;
    Ok(text)
}

/// Writes a number at the right of its columns.
fn push_right(alloc: Global, text: &mut Vec<u8>, number: u32) -> Result<(), AllocError>
    ensures { OnOk result (text.new.items ≡ text.old.items ++ right_text number) }
{
    let digits = number.to_string(alloc)?;
    let end = text.len() + COLUMNS.saturating_sub(digits.len());
    text.resize(end, b' ')?;
    text.extend_from_slice(digits.as_bytes())?;
    Ok(())
}

/// Writes a note in brackets, where there is one.
fn push_note(text: &mut Vec<u8>, note: &[u8]) -> Result<(), AllocError>
    ensures { OnOk result (text.new.items ≡ text.old.items ++ note_text note.now) }
{
    if note.is_empty() {
        return Ok(());
    }
    text.extend_from_slice(b"  (".as_slice())?;
    text.extend_from_slice(note)?;
    text.push(b')')?;
    Ok(())
}

/// Writes what a class id tells.
fn push_class_note(text: &mut Vec<u8>, class: &ClassId) -> Result<(), AllocError>
    ensures { OnOk result (text.new.items ≡ text.old.items ++ note_text (class_name (class_text class.now))) }
{
    let mut buffer = Uuid::encode_buffer();
    let id = Uuid::from_bytes_le(*class.as_bytes());
    let spelled = id.hyphenated().encode_lower(&mut buffer);
    push_note(text, class_name(spelled.as_bytes()))
}

/// Writes the row of the root or of a storage.
fn push_storage(
    text: &mut Vec<u8>,
    kind: &[u8],
    path: &[u8],
    class: &ClassId,
) -> Result<(), AllocError>
    ensures { OnOk result (text.new.items ≡ text.old.items ++ storage_row kind.now path.now class.now) }
{
    text.extend_from_slice(kind)?;
    text.extend_from_slice(b"            ".as_slice())?;
    text.extend_from_slice(path)?;
    push_class_note(text, class)?;
    text.push(b'\n')?;
    Ok(())
}

/// Writes the row of a stream.
fn push_stream(
    alloc: Global,
    text: &mut Vec<u8>,
    path: &[u8],
    name: &[u8],
    size: u32,
) -> Result<(), AllocError>
    ensures { OnOk result (text.new.items ≡ text.old.items ++ stream_row path.now name.now size) }
{
    text.extend_from_slice(b"stream ".as_slice())?;
    push_right(alloc, text, size)?;
    text.extend_from_slice(b"  ".as_slice())?;
    text.extend_from_slice(path)?;
    push_note(text, stream_meaning(name))?;
    text.push(b'\n')?;
    Ok(())
}

/// Writes the rows of what stands below a storage.
#[cycle(rowing)]
fn push_below(
    alloc: Global,
    text: &mut Vec<u8>,
    within: &[u8],
    outline: &Outline,
) -> Result<(), AllocError>
    ensures { OnOk result (text.new.items ≡ text.old.items ++ below_rows within.now (outline_view outline.now)) }
{
    for part in &outline.parts {
        push_part(alloc, text, within, &part.0, &part.1)?;
    }
    Ok(())
}

/// Writes the rows of a child and of what stands below it.
#[cycle(rowing)]
fn push_part(
    alloc: Global,
    text: &mut Vec<u8>,
    within: &[u8],
    name: &Name,
    part: &Part,
) -> Result<(), AllocError>
    ensures { OnOk result (text.new.items ≡ text.old.items ++ child_rows within.now name.now (part_view part.now)) }
{
    let path = path_bytes(alloc, within, name)?;
    match part {
        Part::Stream(place) => push_stream(alloc, text, &path, name.as_bytes(), place.size),
        Part::Storage(inner) => push_inner(alloc, text, path, inner),
    }
}

/// Writes the row of a storage and the rows of what stands below it.
#[cycle(rowing)]
fn push_inner(
    alloc: Global,
    text: &mut Vec<u8>,
    mut path: Vec<u8>,
    inner: &Outline,
) -> Result<(), AllocError>
    ensures { OnOk result (text.new.items ≡ text.old.items ++ storage_rows path.items (outline_view inner.now)) }
{
    push_storage(text, b"storage".as_slice(), &path, &inner.class)?;
    path.push(b'/')?;
    push_below(alloc, text, &path, inner)
}
