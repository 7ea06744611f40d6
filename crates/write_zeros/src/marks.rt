//! Marks of what a file takes.

ghost use Rattle.write_zeros.specs.Taken.{AllIn, AreWithin, IsLinked};
ghost use Rattle.std.specs.List.{Contains};
ghost use Rattle.std.specs.Prelude.{◌≡◌, List, false, slice_index_or, ℕ};

use cfb_header::header::END_OF_CHAIN;

/// Whether a number is marked.
pub(crate) fn is_marked(marks: &[bool], n: usize) -> bool
    ensures { result ≡ slice_index_or marks.now n false }
{
    if n >= marks.len() {
        return false;
    }
    marks[n]
}

/// Marks a number, if there is a mark for it.
pub(crate) fn mark(marks: &mut [bool], n: u32)
    ensures { (taken : List ℕ) → Contains taken n → AreWithin marks.old taken → AreWithin marks.new taken }
{
    let at = n as usize;
    if at >= marks.len() {
        return;
    }
    marks[at] = true;
}

/// Marks the numbers of a list, as far as there are marks for them.
pub(crate) fn mark_all(marks: &mut [bool], numbers: &[u32])
    ensures { (taken : List ℕ) → AllIn numbers.now taken → AreWithin marks.old taken → AreWithin marks.new taken }
{
    for n in numbers {
        mark(marks, *n);
    }
}

/// Marks the chain that begins with a number, as far as it meets no mark, unless it is to hold nothing.
pub(crate) fn mark_chain(marks: &mut [bool], table: &[u32], first: u32, size: u32)
    ensures { (taken ns : List ℕ) → IsLinked table.now first size ns → AllIn ns taken → AreWithin marks.old taken
        → AreWithin marks.new taken }
{
    if size == 0 {
        return;
    }
    let mut at = first;
    let mut steps = 0;
    // A chain meets no number twice: the steps only show that this ends.
    while steps < table.len()
        && at != END_OF_CHAIN
        && (at as usize) < table.len()
        && !is_marked(marks, at as usize)
    {
        mark(marks, at);
        at = table[at as usize];
        steps += 1;
    }
}
