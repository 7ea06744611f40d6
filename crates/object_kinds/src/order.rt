//! Changes in the order of a drawing's shapes.

ghost use Rattle.object_kinds.specs.Drawn.{shapes_told};
ghost use Rattle.std.specs.Prelude.{◌+◌, ◌-◌, ◌++◌, ◌<◌, ◌≡◌, ◌≤◌, drop, length, take};

use crate::shapes::Figure;

/// Takes the shape of this number out. The first one has number 1.
pub fn remove(figures: &mut Vec<Figure>, number: usize)
    requires some { 1 ≤ number }
    requires within { number ≤ length figures.old.items }
    ensures { let shapes = shapes_told figures.old.items in
        shapes_told figures.new.items ≡ take (number - 1) shapes ++ drop number shapes }
{
    figures.remove(number - 1);
}

/// Moves the shape of this number behind all others. The first one has number 1.
pub fn raise(figures: &mut Vec<Figure>, number: usize)
    requires some { 1 ≤ number }
    requires within { number ≤ length figures.old.items }
    ensures { let shapes = shapes_told figures.old.items in
        shapes_told figures.new.items ≡ take (number - 1) shapes ++ drop number shapes
        ++ take 1 (drop (number - 1) shapes) }
{
    move_last(figures, number - 1);
}

/// Moves a figure behind all others.
fn move_last(figures: &mut [Figure], index: usize)
    requires { index < length figures.old }
    ensures { figures.new ≡ take index figures.old ++ drop (index + 1) figures.old ++ take 1 (drop index figures.old) }
{
    figures[index..].rotate_left(1);
}
