//! Laws of contents and edits.

ghost use Rattle.object_core.specs.Objects.{EditsStay, LoadedWasStored, StoredIsLoaded};
ghost use Rattle.object_core.specs.Reading.{ReadWasSpelled, SpelledIsRead};

/// What is spelled as an edit is read as that edit.
pub fn spelled_is_read()
    ensures { SpelledIsRead }
{}

/// What is read as an edit was spelled as that edit is.
pub fn read_was_spelled()
    ensures { ReadWasSpelled }
{}

/// No edit changes the kind of a content, or leads out of its characters, ranges and sizes.
pub fn edits_stay()
    ensures { EditsStay }
{}

/// What is stored is loaded again.
pub fn stored_is_loaded()
    ensures { StoredIsLoaded }
{}

/// What is loaded was so stored, but for the case of the stream's name.
pub fn loaded_was_stored()
    ensures { LoadedWasStored }
{}
