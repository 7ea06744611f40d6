//! The bytes of the stream that holds a drawing: a line for each shape.

ghost use Rattle.object_core.specs.Content.{DRAWING_SIZE, drawing, shape_line};
ghost use Rattle.object_core.specs.Kinds.{Drawing};
ghost use Rattle.object_core.specs.Objects.{Refuses, load_told};
ghost use Rattle.object_core.specs.Reading.{content_of};
ghost use Rattle.object_kinds.specs.Drawn.{shape_told, shapes_told};
ghost use Rattle.object_kinds.specs.Lines.{shape_on, shapes_on};
ghost use Rattle.std.specs.List.{flat_map};
ghost use Rattle.std.specs.Option.{option_map};
ghost use Rattle.std.specs.Prelude.{[], ◌∷◌, ◌≡◌, ◌<◌, IfErr, IfOk, IfSome, IsSome, MatchOption, None, Ok, Some, is_ok};
ghost use Rattle.std.specs.Prelude.{length};

use crate::shapes::{self, Figure};
use object_core::fault::EmbedFault;
use std::alloc::{AllocError, Global};
use text_words::words::cut;

/// The most shapes that a drawing has.
pub const SIZE: usize = 256;

/// The shapes that bytes spell, a line each.
///
/// Refused: `BadContent` where a line isn't that of a shape in range, or isn't ended, or there are too many.
pub fn read_all(alloc: Global, bytes: &[u8]) -> Result<Vec<Figure>, EmbedFault>
    ensures read { IfOk result (λ v. load_told (content_of Drawing bytes.now) ≡ Ok (drawing (shapes_told v.items))) }
    ensures refused { IfErr result (Refuses (load_told (content_of Drawing bytes.now))) }
{
    if !is_drawing(bytes) {
        return Err(EmbedFault::BadContent);
    }
    let figures = collect(alloc, bytes)?;
    Ok(figures)
}

/// Whether bytes spell shapes in range, a line each, no more than a drawing has.
fn is_drawing(bytes: &[u8]) -> bool
    ensures { result ≡ is_ok (load_told (content_of Drawing bytes.now)) }
{
    let mut count = 0;
    let mut rest = bytes;
    while !rest.is_empty() {
        let Some((_, behind)) = first_figure(rest) else {
            return false;
        };
        if count == SIZE {
            return false;
        }
        count += 1;
        rest = behind;
    }
    true
}

/// The shapes of bytes that spell just shapes in range, a line each.
///
/// Refused for want of memory alone.
fn collect(alloc: Global, bytes: &[u8]) -> Result<Vec<Figure>, AllocError>
    requires { IsSome (shapes_on bytes.now) }
    ensures { IfOk result (λ v. shapes_on bytes.now ≡ Some (shapes_told v.items)) }
{
    let mut figures = Vec::new(alloc);
    let mut rest = bytes;
    while !rest.is_empty() {
        let Some((figure, behind)) = first_figure(rest) else {
            unreachable!()
        };
        figures.push(figure)?;
        rest = behind;
    }
    Ok(figures)
}

/// The shape in range that the first line spells, and the bytes behind that line, if there is such a line.
fn first_figure(bytes: &[u8]) -> Option<(Figure, &[u8])>
    requires { 0 < length bytes.now }
    ensures split { MatchOption result (shapes_on bytes.now ≡ None)
        (λ first. shapes_on bytes.now ≡ option_map (λ more. shape_told first.0 ∷ more) (shapes_on first.1.now)) }
    ensures shorter { IfSome result (λ first. length first.1.now < length bytes.now) }
{
    let (line, behind) = cut(bytes, b'\n');
    let behind = behind?;
    let figure = figure_on(line)?;
    Some((figure, behind))
}

/// The shape that a line spells, if it is in range.
fn figure_on(line: &[u8]) -> Option<Figure>
    ensures { option_map shape_told result ≡ shape_on line.now }
{
    let figure = shapes::read(line)?;
    if figure.is_in_range() {
        Some(figure)
    } else {
        None
    }
}

/// The bytes that spell shapes, a line each.
///
/// Refused for want of memory alone.
pub fn spell_all(alloc: Global, figures: &[Figure]) -> Result<Vec<u8>, AllocError>
    ensures { IfOk result (λ v. v.items ≡ flat_map shape_line (shapes_told figures.now)) }
{
    let mut text = String::new(alloc);
    for figure in figures {
        shapes::push_line(&mut text, figure)?;
    }
    Ok(text.into_bytes())
}
