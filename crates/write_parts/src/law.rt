//! Laws of fronts of files.

ghost use Rattle.std.specs.Prelude.{ℕ, ◌≡◌};
ghost use Rattle.cfb_entries.specs.Tree.{Tree};
ghost use Rattle.write_parts.specs.Fronts.{front_bytes};
ghost use Rattle.cfb_file.specs.Outline.{outline_of};

/// Trees with one outline have one front: the bytes before the streams go by names, classes, states and lengths alone.
pub fn one_front()
    ensures { (t u : Tree) → outline_of t ≡ outline_of u → (f : ℕ) → front_bytes f t ≡ front_bytes f u }
{}
