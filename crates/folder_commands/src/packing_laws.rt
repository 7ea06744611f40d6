//! Laws of folders that are read again.

ghost use Rattle.folder_commands.specs.Names.{ComponentsAreRead};

/// What a folder holds a name of a storage or a stream as is read as that name.
pub fn components_are_read()
    ensures { ComponentsAreRead }
{}
