//! The texts of a check.

ghost use Rattle.text_words.specs.Told.{told};
ghost use Rattle.tell_checks.specs.Lines.{told_line};
ghost use Rattle.tell_checks.specs.Json.{sound_text, told_text};
ghost use Rattle.std.specs.Prelude.{◌++◌, ◌≡◌, IfOk, codes};

use crate::json_form::{sound_json, told_json};
use crate::lines::line_of;
use crate::spot::Spot;
use read_files::fault::ReadFault;
use std::alloc::{AllocError, Global};
use text_words::told::Told;

/// How it is told what is wrong with a file.
#[derive(Clone, Copy)]
pub enum Form<'a> {
    /// A line for eyes.
    Line,
    /// One JSON value (RFC 8259).
    Json,
    /// A line for eyes, behind the file's name, which is told as `Told` does.
    LineOf(&'a str),
    /// One JSON value, whose first member is the file's name.
    JsonOf(&'a str),
}

/// A line behind the name of its file.
fn line_behind(alloc: Global, name: &str, line: &[u8]) -> Result<Vec<u8>, AllocError>
    ensures { IfOk result (λ v. v.items ≡ told name.now ++ (codes ": " ++ line.now)) }
{
    let file = Told(name);
    let mut text = format!(in alloc; "{file}: ")?.into_bytes();
    text.extend_from_slice(line)?;
    Ok(text)
}

/// The line of a fault and its place, behind the name of its file.
fn told_behind(
    alloc: Global,
    name: &str,
    fault: &ReadFault,
    spot: &Option<Spot>,
) -> Result<Vec<u8>, AllocError>
    ensures { IfOk result (λ v. v.items ≡ told name.now ++ (codes ": " ++ told_line fault.now spot.now)) }
{
    let line = line_of(alloc, fault, spot)?;
    line_behind(alloc, name, &line)
}

/// The text that a file is sound, in a form.
///
/// Refused for want of memory alone.
pub fn sound_text(alloc: Global, form: Form<'_>) -> Result<Vec<u8>, AllocError>
    ensures { IfOk result (λ v. v.items ≡ sound_text form.entry) }
{
    match form {
        Form::Line => Vec::from_slice(alloc, b"ok\n".as_slice()),
        Form::Json => sound_json(alloc, None),
        Form::LineOf(name) => line_behind(alloc, name, b"ok\n".as_slice()),
        Form::JsonOf(name) => sound_json(alloc, Some(name)),
    }
}

/// The text of a fault of a file, and of its place where one is told, in a form.
///
/// Refused for want of memory alone.
pub fn told_text(
    alloc: Global,
    form: Form<'_>,
    fault: &ReadFault,
    spot: &Option<Spot>,
) -> Result<Vec<u8>, AllocError>
    ensures { IfOk result (λ v. v.items ≡ told_text form.entry fault.now spot.now) }
{
    match form {
        Form::Line => line_of(alloc, fault, spot),
        Form::Json => told_json(alloc, None, fault, spot),
        Form::LineOf(name) => told_behind(alloc, name, fault, spot),
        Form::JsonOf(name) => told_json(alloc, Some(name), fault, spot),
    }
}
