//! Painting shapes on a canvas of 12 lines of 40 characters, which stand one line after the other.

ghost use Rattle.object_core.specs.Content.{box, drawing};
ghost use Rattle.object_core.specs.Pictures.{glyph_over, painted, picture_bytes};
ghost use Rattle.object_kinds.specs.Canvases.{Painted, along, cell_at, downward, edge};
ghost use Rattle.object_kinds.specs.Drawn.{shape_told, shapes_told};
ghost use Rattle.std.specs.Prelude.{◌≡◌, ◌^◌, ◌<◌, ℕ, IfOk, length, slice_index};

use crate::shapes::{Figure, Heading};
use object_core::picture::push_line;
use std::alloc::{AllocError, Global};

/// How many characters a line has.
pub const WIDTH: usize = 40;

/// How many lines a canvas has.
pub const HEIGHT: usize = 12;

/// How many characters a canvas has.
pub const AREA: usize = WIDTH * HEIGHT;

/// Paints shapes, each over those before it.
pub fn paint_all(cells: &mut [u8], figures: &[Figure])
    requires { length cells.old ≡ AREA }
    ensures { Painted (glyph_over (shapes_told figures.now)) cells.old cells.new }
{
    for figure in figures {
        paint(cells, figure);
    }
}

/// Paints a shape over what is there.
fn paint(cells: &mut [u8], figure: &Figure)
    requires { length cells.old ≡ AREA }
    ensures { Painted (painted (shape_told figure.now)) cells.old cells.new }
{
    match *figure {
        Figure::Rectangle {
            x,
            y,
            width,
            height,
        } => paint_box(cells, x as usize, y as usize, width, height),
        Figure::Line {
            x,
            y,
            heading: Heading::Across,
            length,
        } => paint_edge(cells, x as usize, y as usize, length, b'-'),
        Figure::Line {
            x,
            y,
            heading: Heading::Down,
            length,
        } => paint_down(cells, x as usize, y as usize, length),
    }
}

/// Paints the outline of a box. One without width or height has none.
fn paint_box(cells: &mut [u8], x: usize, y: usize, width: u32, height: u32)
    requires whole { length cells.old ≡ AREA }
    requires left { x < 2 ^ 32 }
    requires top { y < 2 ^ 32 }
    ensures { Painted (painted (box x y width height)) cells.old cells.new }
{
    if width == 0 || height == 0 {
        return;
    }
    let right = x + width as usize - 1;
    let bottom = y + height as usize - 1;
    paint_down(cells, x, y, height);
    paint_down(cells, right, y, height);
    paint_edge(cells, x, y, width, b'+');
    paint_edge(cells, x, bottom, width, b'+');
}

/// Paints `-` over so many cells to the right, and another glyph over the first and the last of them.
fn paint_edge(cells: &mut [u8], x: usize, y: usize, count: u32, corner: u8)
    requires whole { length cells.old ≡ AREA }
    requires left { x < 2 ^ 33 }
    ensures { Painted (along x y count (edge x count corner 45)) cells.old cells.new }
{
    if y >= HEIGHT {
        return;
    }
    let end = x + count as usize;
    for column in x..end.min(WIDTH) {
        let is_corner = column == x || column + 1 == end;
        cells[WIDTH * y + column] = if is_corner { corner } else { b'-' };
    }
}

/// Paints `|` over so many cells down.
fn paint_down(cells: &mut [u8], x: usize, y: usize, count: u32)
    requires whole { length cells.old ≡ AREA }
    requires top { y < 2 ^ 33 }
    ensures { Painted (downward x y count) cells.old cells.new }
{
    if x >= WIDTH {
        return;
    }
    let end = y + count as usize;
    for row in y..end.min(HEIGHT) {
        cells[WIDTH * row + x] = b'|';
    }
}

/// The picture of shapes: 12 lines, each ended by a line feed.
///
/// Refused for want of memory alone.
pub fn picture(alloc: Global, figures: &[Figure]) -> Result<Vec<u8>, AllocError>
    ensures { IfOk result (λ v. v.items ≡ picture_bytes (drawing (shapes_told figures.now))) }
{
    let mut cells = [b' '; AREA];
    paint_all(&mut cells, figures);
    let mut picture = Vec::new(alloc);
    for row in 0..HEIGHT {
        push_line(&mut picture, line(&cells, row))?;
    }
    Ok(picture)
}

/// A line of a canvas.
fn line(cells: &[u8], row: usize) -> &[u8]
    requires whole { length cells.now ≡ AREA }
    requires low { row < HEIGHT }
    ensures wide { length result.now ≡ WIDTH }
    ensures cells { (column : ℕ) → column < WIDTH → slice_index result.now column ≡ cell_at cells.now column row }
{
    &cells[WIDTH * row..WIDTH * (row + 1)]
}
