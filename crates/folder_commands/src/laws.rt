//! Laws of the names in folders.

ghost use Rattle.folder_commands.specs.Laws.{ComponentsAreApart};

/// Two names of one storage stand under two names in its folder, also where a file system takes the two cases of a
/// letter for one.
pub fn components_are_apart()
    ensures { ComponentsAreApart }
{}
