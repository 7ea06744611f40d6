//! What an object shows in one line of its area.

ghost use Rattle.std.specs.Prelude.{◌≡◌, ◌≤◌, drop, length, take};
ghost use Rattle.container_core.specs.Screen.{behind_line, behind_lines, line_length, line_of, nth_line, strip_in};
ghost use Rattle.container_core.specs.Screen.{strip_of};
ghost use Rattle.container_core.specs.View.{strip_view};

use container_model::record::Object;
use ole_model::presentation::lines;

/// What an object shows in one line of its area.
#[derive(Clone, Copy)]
pub enum Strip<'a> {
    /// Nothing.
    Nothing,
    /// A line of its picture.
    Text(&'a [u8]),
    /// The first or the last line of its outline.
    Edge,
    /// A line of its outline between these.
    Sides,
}

// How many bytes the first line has.
fn line_length(text: &[u8]) -> usize
    ensures line { result ≡ line_length text.now }
    ensures within { result ≤ length text.now }
{
    for (i, c) in text.iter().enumerate() {
        if *c == b'\n' {
            return i;
        }
    }
    text.len()
}

// What stands behind the first line.
fn behind_line(text: &[u8]) -> &[u8]
    ensures { result.now ≡ behind_line text.now }
{
    let length = line_length(text);
    if length < text.len() {
        &text[length + 1..]
    } else {
        &text[length..]
    }
}

// What stands behind so many lines.
fn behind_lines(n: u16, text: &[u8]) -> &[u8]
    ensures { result.now ≡ behind_lines n text.now }
{
    let mut left = text;
    let mut i = 0;
    while i < n {
        left = behind_line(left);
        i += 1;
    }
    left
}

// A line of a picture, from 0.
fn nth_line(n: u16, text: &[u8]) -> &[u8]
    ensures { result.now ≡ nth_line n text.now }
{
    let left = behind_lines(n, text);
    &left[..line_length(left)]
}

/// What an object shows in a line of its frame.
pub fn strip_of(y: u16, object: &Object) -> Strip<'_>
    ensures { strip_view result ≡ strip_of y object.now }
{
    let area = object.area;
    if y < area.y || u32::from(y) >= u32::from(area.y) + u32::from(area.h) {
        return Strip::Nothing;
    }
    let n = y - area.y;
    match lines(object.work.picture.as_slice()) {
        Some(text) => Strip::Text(nth_line(n, text)),
        None => {
            if n == 0 || u32::from(n) + 1 == u32::from(area.h) {
                Strip::Edge
            } else {
                Strip::Sides
            }
        }
    }
}
