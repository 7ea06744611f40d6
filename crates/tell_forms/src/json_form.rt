//! Listings as JSON (RFC 8259).

ghost use Rattle.tell_forms.specs.Json.{below_tokens, child_tokens, first_member, inner_tokens, json_listed};
ghost use Rattle.tell_forms.specs.Json.{json_tokens, number_member, storage_tokens, stream_tokens, text_member};
ghost use Rattle.tell_forms.specs.Placed.{part_placed, placed_view};
ghost use Rattle.std.specs.Fmt.{decimal};
ghost use Rattle.std.specs.Prelude.{◌≡◌, ◌++◌, codes, IfOk, OnOk, string_bytes};
ghost use Rattle.text_words.specs.Spelled.{class_text};

use crate::paths::path_text;
use cfb_names::name::Name;
use json::Writer;
use read_outlines::outline::{Outline, Part, Place};
use std::alloc::{AllocError, Global};
use tree_values::class_id::ClassId;
use uuid::Uuid;

/// One JSON value: an array of objects, one for the root and then one for each storage and stream, in the order of
/// `list`.
pub(crate) fn value(alloc: Global, outline: &Outline) -> Result<Vec<u8>, AllocError>
    ensures { IfOk result (λ text. text.items ≡ json_listed (placed_view outline.now)) }
{
    let mut writer = Writer::new(Vec::new(alloc));
    write_array(alloc, &mut writer, outline)?;
    let mut text = writer.into_inner();
    text.push(b'\n')?;
    Ok(text)
}

/// Writes the whole array.
fn write_array(alloc: Global, writer: &mut Writer, outline: &Outline) -> Result<(), AllocError>
    ensures before { OnOk result (writer.new.before ≡ writer.old.before) }
    ensures tokens { OnOk result (writer.new.tokens ≡ writer.old.tokens ++ json_tokens (placed_view outline.now)) }
{
    writer.begin_array()?;
    write_storage(writer, "root", "", &outline.class, outline.state)?;
    write_below(alloc, writer, "", outline)?;
    writer.end_array()?;
    Ok(())
}

/// Writes a member of a text.
fn write_text(writer: &mut Writer, name: &str, text: &str) -> Result<(), AllocError>
    ensures before { OnOk result (writer.new.before ≡ writer.old.before) }
    ensures tokens { OnOk result (writer.new.tokens ≡ writer.old.tokens ++ text_member name.now text.now) }
{
    writer.key(name)?;
    writer.string(text)?;
    Ok(())
}

/// Writes a member of a number.
fn write_number(writer: &mut Writer, name: &str, number: u32) -> Result<(), AllocError>
    ensures before { OnOk result (writer.new.before ≡ writer.old.before) }
    ensures tokens { OnOk result (writer.new.tokens ≡ writer.old.tokens ++ number_member name.now number) }
{
    writer.key(name)?;
    writer.u64(u64::from(number))?;
    Ok(())
}

/// Writes the member of a class id.
fn write_class(writer: &mut Writer, class: &ClassId) -> Result<(), AllocError>
    ensures before { OnOk result (writer.new.before ≡ writer.old.before) }
    ensures tokens { OnOk result (writer.new.tokens ≡ writer.old.tokens ++ text_member (codes "class")
        (class_text class.now)) }
{
    let mut buffer = Uuid::encode_buffer();
    let id = Uuid::from_bytes_le(*class.as_bytes());
    let spelled = id.hyphenated().encode_lower(&mut buffer);
    write_text(writer, "class", spelled)
}

/// Writes what is told of the root or of a storage.
fn write_storage(
    writer: &mut Writer,
    kind: &str,
    path: &str,
    class: &ClassId,
    state: u32,
) -> Result<(), AllocError>
    ensures before { OnOk result (writer.new.before ≡ writer.old.before) }
    ensures tokens { OnOk result (writer.new.tokens ≡ writer.old.tokens ++ storage_tokens kind.now path.now
        class.now state) }
{
    writer.begin_object()?;
    write_text(writer, "type", kind)?;
    write_text(writer, "path", path)?;
    write_class(writer, class)?;
    write_number(writer, "state", state)?;
    writer.end_object()?;
    Ok(())
}

/// Writes the member of where a stream begins, if it has any bytes.
fn write_first(writer: &mut Writer, place: Place) -> Result<(), AllocError>
    ensures before { OnOk result (writer.new.before ≡ writer.old.before) }
    ensures tokens { OnOk result (writer.new.tokens ≡ writer.old.tokens ++ first_member place) }
{
    if place.size == 0 {
        return Ok(());
    }
    write_number(writer, "first", place.first)
}

/// Writes what is told of a stream.
fn write_stream(writer: &mut Writer, path: &str, place: Place) -> Result<(), AllocError>
    ensures before { OnOk result (writer.new.before ≡ writer.old.before) }
    ensures tokens { OnOk result (writer.new.tokens ≡ writer.old.tokens ++ stream_tokens path.now place) }
{
    writer.begin_object()?;
    write_text(writer, "type", "stream")?;
    write_text(writer, "path", path)?;
    write_number(writer, "size", place.size)?;
    write_first(writer, place)?;
    writer.end_object()?;
    Ok(())
}

/// Writes what is told of all that stands below a storage.
#[cycle(telling)]
fn write_below(
    alloc: Global,
    writer: &mut Writer,
    within: &str,
    outline: &Outline,
) -> Result<(), AllocError>
    ensures before { OnOk result (writer.new.before ≡ writer.old.before) }
    ensures tokens { OnOk result (writer.new.tokens ≡ writer.old.tokens ++ below_tokens within.now
        (placed_view outline.now)) }
{
    for part in &outline.parts {
        write_part(alloc, writer, within, &part.0, &part.1)?;
    }
    Ok(())
}

/// Writes what is told of a child and of what stands below it.
#[cycle(telling)]
fn write_part(
    alloc: Global,
    writer: &mut Writer,
    within: &str,
    name: &Name,
    part: &Part,
) -> Result<(), AllocError>
    ensures before { OnOk result (writer.new.before ≡ writer.old.before) }
    ensures tokens { OnOk result (writer.new.tokens ≡ writer.old.tokens ++ child_tokens within.now name.now
        (part_placed part.now)) }
{
    let path = path_text(alloc, within, name)?;
    match part {
        Part::Stream(place) => write_stream(writer, path.as_str(), *place),
        Part::Storage(inner) => write_inner(alloc, writer, path, inner),
    }
}

/// Writes what is told of a storage and of what stands below it.
#[cycle(telling)]
fn write_inner(
    alloc: Global,
    writer: &mut Writer,
    mut path: String,
    inner: &Outline,
) -> Result<(), AllocError>
    ensures before { OnOk result (writer.new.before ≡ writer.old.before) }
    ensures tokens { OnOk result (writer.new.tokens ≡ writer.old.tokens ++ inner_tokens (string_bytes path)
        (placed_view inner.now)) }
{
    write_storage(writer, "storage", path.as_str(), &inner.class, inner.state)?;
    path.push('/')?;
    write_below(alloc, writer, path.as_str(), inner)
}
