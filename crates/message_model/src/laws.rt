//! Laws of byte forms.

ghost use Rattle.message_model.specs.Frames.{FramesAreLongest, ReadingIsOne, SpelledIsRead, SpellingsAreApart};

/// No frame's byte form is a proper prefix of another's.
pub fn spellings_are_apart()
    ensures { SpellingsAreApart }
{}

/// Bytes are read as frames, and show a fault, in one way.
pub fn reading_is_one()
    ensures { ReadingIsOne }
{}

/// The frames that bytes are read as are the longest list whose byte forms, joined, are a prefix of the bytes.
pub fn frames_are_longest()
    ensures { FramesAreLongest }
{}

/// What was spelled is read again.
pub fn spelled_is_read()
    ensures { SpelledIsRead }
{}
