//! Checking many files.

ghost use Rattle.tell_files.specs.Many.{AreChecked, Notes};
ghost use Rattle.std.specs.Prelude.{[], ◌∷◌, Bool, List, None, Option, map, ℕ};

/// Files that are checked by their names, and where it is told what is wrong with each.
pub trait Checker {
    // The names of the files that were checked, and whether each is sound, where that is known.
    ghost checked: { Self → Option (List (List ℕ × Bool)) } = { λ _. None };

    /// Checks the file of a name, tells what is wrong with it, and gives whether it is sound.
    fn check(&mut self, name: &str) -> bool
        ensures { Notes (checked self.old) (checked self.new) ((name.now, result) ∷ []) };
}

/// Checks the files of these names, one after another in their order, also those behind one that isn't sound. Gives
/// whether all are.
pub fn check_all<C: Checker>(checker: &mut C, names: &[&str]) -> bool
    ensures { AreChecked (map (λ n. n.now) names.now) (C.checked checker.old) (C.checked checker.new) result }
{
    let mut are_sound = true;
    for name in names {
        are_sound &= checker.check(name);
    }
    are_sound
}
