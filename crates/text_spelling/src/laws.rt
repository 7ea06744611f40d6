//! Laws of the texts that the program writes and reads.

ghost use Rattle.text_spelling.specs.Laws.{PrintedNumbersAreRead, SpelledPathsAreRead};

/// A path of names that a directory takes, as it is spelled, is read as that path.
pub fn spelled_path_is_read()
    ensures { SpelledPathsAreRead }
{}

/// A number of 32 bits, printed as usual, is read as that number.
pub fn printed_number_is_read()
    ensures { PrintedNumbersAreRead }
{}
