//! Listings in lines.

ghost use Rattle.tell_forms.specs.Lines.{below, child_lines, listed, root_line, storage_line, storage_lines};
ghost use Rattle.tell_forms.specs.Lines.{stream_line};
ghost use Rattle.text_words.specs.Spelled.{name_text};
ghost use Rattle.std.specs.Fmt.{decimal};
ghost use Rattle.std.specs.Prelude.{◌≡◌, ◌<◌, ◌++◌, ◌∷◌, [], IfOk, OnOk};
ghost use Rattle.read_outlines.specs.View.{outline_view, part_view};

use crate::paths::path_bytes;
use cfb_names::name::Name;
use read_outlines::outline::{Outline, Part};
use std::alloc::{AllocError, Global};
use text_spelling::writing::{push_class, push_name, push_numbered};
use tree_values::class_id::ClassId;

/// How many bytes a line usually has: room for so many is taken at once for each child of the root.
const USUAL_LINE: usize = 24;

/// A line for the root and then one for each storage and stream, depth first in the order of names.
pub(crate) fn lines(alloc: Global, outline: &Outline) -> Result<Vec<u8>, AllocError>
    ensures { IfOk result (λ text. text.items ≡ listed (outline_view outline.now)) }
{
    let mut text = Vec::with_capacity(alloc, outline.parts.len().saturating_mul(USUAL_LINE))?;
    push_root(&mut text, &outline.class)?;
    push_below(alloc, &mut text, &[], outline)?;
    Ok(text)
}

/// Writes the root's line.
fn push_root(text: &mut Vec<u8>, class: &ClassId) -> Result<(), AllocError>
    ensures { OnOk result (text.new.items ≡ text.old.items ++ root_line class.now) }
{
    text.extend_from_slice(b"root ".as_slice())?;
    push_class(text, class)?;
    text.push(b'\n')?;
    Ok(())
}

/// Writes a storage's line.
fn push_storage(text: &mut Vec<u8>, path: &[u8], class: &ClassId) -> Result<(), AllocError>
    ensures { OnOk result (text.new.items ≡ text.old.items ++ storage_line path.now class.now) }
{
    text.extend_from_slice(b"storage ".as_slice())?;
    text.extend_from_slice(path)?;
    text.push(b' ')?;
    push_class(text, class)?;
    text.push(b'\n')?;
    Ok(())
}

/// Writes a stream's line. Its path is written where it stands, so that no buffer is taken for it.
fn push_stream(
    alloc: Global,
    text: &mut Vec<u8>,
    within: &[u8],
    name: &Name,
    size: usize,
) -> Result<(), AllocError>
    ensures { OnOk result (text.new.items ≡ text.old.items ++ stream_line (within.now ++ name_text name.now) size) }
{
    text.extend_from_slice(b"stream ".as_slice())?;
    text.extend_from_slice(within)?;
    push_name(text, name.as_bytes())?;
    push_numbered(alloc, text, " ", size)?;
    text.push(b'\n')?;
    Ok(())
}

/// Writes the lines of what stands below a storage.
#[cycle(lining)]
fn push_below(
    alloc: Global,
    text: &mut Vec<u8>,
    within: &[u8],
    outline: &Outline,
) -> Result<(), AllocError>
    ensures { OnOk result (text.new.items ≡ text.old.items ++ below within.now (outline_view outline.now)) }
{
    for part in &outline.parts {
        push_part(alloc, text, within, &part.0, &part.1)?;
    }
    Ok(())
}

/// Writes the lines of a child and of what stands below it.
#[cycle(lining)]
fn push_part(
    alloc: Global,
    text: &mut Vec<u8>,
    within: &[u8],
    name: &Name,
    part: &Part,
) -> Result<(), AllocError>
    ensures { OnOk result (text.new.items ≡ text.old.items ++ child_lines within.now name.now (part_view part.now)) }
{
    match part {
        Part::Stream(place) => push_stream(alloc, text, within, name, place.size as usize),
        Part::Storage(inner) => {
            let path = path_bytes(alloc, within, name)?;
            push_inner(alloc, text, path, inner)
        }
    }
}

/// Writes the line of a storage and the lines of what stands below it.
#[cycle(lining)]
fn push_inner(
    alloc: Global,
    text: &mut Vec<u8>,
    mut path: Vec<u8>,
    inner: &Outline,
) -> Result<(), AllocError>
    ensures { OnOk result (text.new.items ≡ text.old.items ++ storage_lines path.items (outline_view inner.now)) }
{
    push_storage(text, &path, &inner.class)?;
    path.push(b'/')?;
    push_below(alloc, text, &path, inner)
}
