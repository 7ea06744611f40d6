//! Laws of the changes of a tree.

ghost use Rattle.tree_storage.specs.Laws.{AddedIsThere, ChangeKeeps, IsGone, MadeIsThere, PutIsThere, RenamedIsThere};
ghost use Rattle.tree_storage.specs.Laws.{Stays};
ghost use Rattle.tree_storage.specs.Transactions.{RevertGivesBack};

/// A change leaves all paths that part from its own, and from the new one of a rename.
pub fn stays()
    ensures { Stays }
{}

/// What was put is there.
pub fn put_is_there()
    ensures { PutIsThere }
{}

/// A stream that was made where nothing stood is there.
pub fn added_is_there()
    ensures { AddedIsThere }
{}

/// What was made is there.
pub fn made_is_there()
    ensures { MadeIsThere }
{}

/// What stood at the old path of a rename, and below it, stands at the new one.
pub fn renamed_is_there()
    ensures { RenamedIsThere }
{}

/// A removal frees its path, and a rename to another name its old one.
pub fn is_gone()
    ensures { IsGone }
{}

/// A change leaves a whole tree whole.
pub fn change_keeps()
    ensures { ChangeKeeps }
{}

/// A revert gives back what the matching begin saw.
pub fn revert_gives_back()
    ensures { RevertGivesBack }
{}
