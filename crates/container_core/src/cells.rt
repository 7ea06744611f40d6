//! One line of a frame's cells.

ghost use Rattle.std.specs.Prelude.{◌≡◌, ◌≤◌, if◌then◌else◌, length};
ghost use Rattle.container_core.specs.Screen.{bordered, cell_at, cell_in, is_border, is_in, is_side, or_left, painted};
ghost use Rattle.container_core.specs.Screen.{painted_all, strip_of};
ghost use Rattle.container_core.specs.View.{strip_view};

use crate::strip::{Strip, strip_of};
use container_model::record::Object;
use tree_streams::area::Area;

// Whether a column is the first or the last one.
fn is_side(width: u16, n: u16) -> bool
    ensures { result ≡ is_side width n }
{
    n == 0 || u32::from(n) + 1 == u32::from(width)
}

// The character at a column of the area, if one is shown there.
fn cell_in(width: u16, n: u16, strip: Strip<'_>) -> Option<u8>
    ensures { result ≡ cell_in width n (strip_view strip.entry) }
{
    match strip {
        Strip::Nothing => None,
        Strip::Text(text) => text.get(usize::from(n)).copied(),
        Strip::Edge => Some(if is_side(width, n) { b'+' } else { b'-' }),
        Strip::Sides => { if is_side(width, n) { Some(b'|') } else { None } }
    }
}

// The same at a column of the frame.
#[tactic(auto, unfolding(crate::specs::Screen::cell_at))]
fn cell_at(area: Area, strip: Strip<'_>, x: u16) -> Option<u8>
    ensures { result ≡ cell_at area (strip_view strip.entry) x }
{
    if x < area.x || u32::from(x) >= u32::from(area.x) + u32::from(area.w) {
        return None;
    }
    cell_in(area.w, x - area.x, strip)
}

// An object shows this at a column of a line.
fn paint_cell(c: &mut u8, area: Area, strip: Strip<'_>, x: u16)
    ensures { c.new ≡ or_left c.old (cell_at area (strip_view strip.entry) x) }
{
    if let Some(shown) = cell_at(area, strip, x) {
        *c = shown;
    }
}

// An object shows this in a line of the frame.
fn paint(row: &mut [u8], area: Area, strip: Strip<'_>)
    requires { length row.old ≤ 65535 }
    ensures { row.new ≡ painted area (strip_view strip.entry) 0 row.old }
{
    for (i, c) in row.iter_mut().enumerate() {
        paint_cell(c, area, strip, i as u16);
    }
}

/// The objects of a frame show themselves in a line of it, one over the other.
pub fn paint_all(f: u32, y: u16, objects: &[Object], row: &mut [u8])
    requires { length row.old ≤ 65535 }
    ensures { row.new ≡ painted_all f y objects.now row.old }
{
    for object in objects {
        if object.frame == f {
            paint(row, object.area, strip_of(y, object));
        }
    }
}

// Whether a cell belongs to the border space.
fn is_border(width: u16, height: u16, border: [u16; 4], y: u16, x: u16) -> bool
    ensures { result ≡ is_border width height border y x }
{
    let [left, top, right, bottom] = border;
    x < left
        || y < top
        || u32::from(width) <= u32::from(x) + u32::from(right)
        || u32::from(height) <= u32::from(y) + u32::from(bottom)
}

// The border space lies over a cell.
fn border_cell(c: &mut u8, is_border: bool)
    ensures { c.new ≡ (if is_border then 35 else c.old) }
{
    if is_border {
        *c = b'#';
    }
}

/// The border space lies over a line.
pub fn border_row(width: u16, height: u16, border: [u16; 4], y: u16, row: &mut [u8])
    requires { length row.old ≤ 65535 }
    ensures { row.new ≡ bordered width height border y 0 row.old }
{
    for (i, c) in row.iter_mut().enumerate() {
        border_cell(c, is_border(width, height, border, y, i as u16));
    }
}
