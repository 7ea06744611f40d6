//! Laws of what is written and read.

ghost use Rattle.ole_model.specs.Laws.{LinesAreReadAgain, OleIsReadAgain, UserTypeIsReadAgain};

/// `\1Ole` as it is written is read.
pub fn ole_is_read_again()
    ensures { OleIsReadAgain }
{}

/// Of `\1CompObj` as it is written, just the user type is read.
pub fn user_type_is_read_again()
    ensures { UserTypeIsReadAgain }
{}

/// Of `\2OlePres000` as lines are written, just these lines are read.
pub fn lines_are_read_again()
    ensures { LinesAreReadAgain }
{}
