//! The shapes of a drawing.

ghost use Rattle.object_core.specs.Content.{across, box, down, is_shape, line, shape_line};
ghost use Rattle.object_core.specs.Reading.{box_of, line_of, direction_of, pair_of, shape_in, shape_of};
ghost use Rattle.text_words.specs.Words.{number_read, words};
ghost use Rattle.object_kinds.specs.Drawn.{direction_told, shape_told};
ghost use Rattle.std.specs.Option.{option_map};
ghost use Rattle.std.specs.Prelude.{[], ◌∷◌, ◌++◌, ◌≡◌, ℕ, MatchOption, None, OnOk};
ghost use Rattle.std.specs.String.{string_bytes};

use std::alloc::AllocError;
use text_words::words::{cut, number};

/// The last column and the last line in which a shape begins.
const LAST_START: u32 = 99;

/// How wide, high or long a shape is at most.
const LONGEST: u32 = 100;

/// Where a line goes from its first cell.
#[derive(Clone, Copy)]
pub enum Heading {
    Across,
    Down,
}

/// A shape, by the column and the line where it begins, from 0 at the top left.
#[derive(Clone, Copy)]
pub enum Figure {
    /// A box, by its width and height.
    Rectangle {
        x: u32,
        y: u32,
        width: u32,
        height: u32,
    },
    /// A line, by where it goes and how long it is.
    Line {
        x: u32,
        y: u32,
        heading: Heading,
        length: u32,
    },
}

impl Figure {
    ghost use Rattle.std.specs.Prelude.{◌≡◌};
    ghost use Rattle.object_core.specs.Content.{is_shape};
    ghost use Rattle.object_kinds.specs.Drawn.{shape_told};

    /// Whether it begins within columns and lines 0 to 99, and its sizes are 1 to 100.
    pub fn is_in_range(&self) -> bool
        ensures { result ≡ is_shape (shape_told self.now) }
    {
        match *self {
            Figure::Rectangle {
                x,
                y,
                width,
                height,
            } => x <= LAST_START
                && y <= LAST_START
                && 1 <= width
                && width <= LONGEST
                && 1 <= height
                && height <= LONGEST,
            Figure::Line { x, y, length, .. } => x <= LAST_START
                && y <= LAST_START
                && 1 <= length
                && length <= LONGEST,
        }
    }
}

/// The shape that bytes spell, if any: `b X Y W H` or `l X Y D N`.
pub fn read(bytes: &[u8]) -> Option<Figure>
    ensures { option_map shape_told result ≡ shape_in (words bytes.now) }
{
    let (letter, rest) = cut(bytes, b' ');
    let (x, y, third, fourth) = four_words(rest?)?;
    match letter {
        [b'b'] => rectangle(x, y, third, fourth),
        [b'l'] => line(x, y, third, fourth),
        _ => None,
    }
}

/// The four words that a text is, if it is just four.
#[tactic(auto, using(crate::proofs::Behind::readings))]
fn four_words(text: &[u8]) -> Option<(&[u8], &[u8], &[u8], &[u8])>
    ensures { MatchOption result ((letter : ℕ) → shape_of letter (words text.now) ≡ None)
        (λ four. words text.now ≡ four.0.now ∷ four.1.now ∷ four.2.now ∷ four.3.now ∷ []) }
{
    let (first, rest) = cut(text, b' ');
    let (second, rest) = cut(rest?, b' ');
    let (third, rest) = cut(rest?, b' ');
    match cut(rest?, b' ') {
        (fourth, None) => Some((first, second, third, fourth)),
        _ => None,
    }
}

fn rectangle(x: &[u8], y: &[u8], width: &[u8], height: &[u8]) -> Option<Figure>
    ensures { option_map shape_told result ≡ box_of (pair_of x.now y.now) (pair_of width.now height.now) }
{
    Some(Figure::Rectangle {
        x: number(x)?,
        y: number(y)?,
        width: number(width)?,
        height: number(height)?,
    })
}

fn line(x: &[u8], y: &[u8], heading: &[u8], length: &[u8]) -> Option<Figure>
    ensures { option_map shape_told result ≡ line_of (pair_of x.now y.now) (direction_of heading.now)
        (number_read length.now) }
{
    Some(Figure::Line {
        x: number(x)?,
        y: number(y)?,
        heading: heading_of(heading)?,
        length: number(length)?,
    })
}

fn heading_of(word: &[u8]) -> Option<Heading>
    ensures { option_map direction_told result ≡ direction_of word.now }
{
    match word {
        [b'h'] => Some(Heading::Across),
        [b'v'] => Some(Heading::Down),
        _ => None,
    }
}

/// Puts a line that spells the shape behind a text.
///
/// Refused for want of memory alone. The text may then have got a part of the line.
pub fn push_line(text: &mut String, figure: &Figure) -> Result<(), AllocError>
    ensures { OnOk result (string_bytes text.new ≡ string_bytes text.old ++ shape_line (shape_told figure.now)) }
{
    match *figure {
        Figure::Rectangle {
            x,
            y,
            width,
            height,
        } => push_rectangle(text, x, y, width, height),
        Figure::Line {
            x,
            y,
            heading: Heading::Across,
            length,
        } => push_across(text, x, y, length),
        Figure::Line {
            x,
            y,
            heading: Heading::Down,
            length,
        } => push_down(text, x, y, length),
    }
}

// The proof of a function spells out what it writes at each of its steps, so each of the three lines has a function of
// its own.
fn push_rectangle(
    text: &mut String,
    x: u32,
    y: u32,
    width: u32,
    height: u32,
) -> Result<(), AllocError>
    ensures { OnOk result (string_bytes text.new ≡ string_bytes text.old ++ shape_line (box x y width height)) }
{
    writeln!(text, "b {x} {y} {width} {height}")
}

fn push_across(text: &mut String, x: u32, y: u32, length: u32) -> Result<(), AllocError>
    ensures { OnOk result (string_bytes text.new ≡ string_bytes text.old ++ shape_line (line x y across length)) }
{
    writeln!(text, "l {x} {y} h {length}")
}

fn push_down(text: &mut String, x: u32, y: u32, length: u32) -> Result<(), AllocError>
    ensures { OnOk result (string_bytes text.new ≡ string_bytes text.old ++ shape_line (line x y down length)) }
{
    writeln!(text, "l {x} {y} v {length}")
}
