//! What files give, and that the file of a commit gives its objects again.

ghost use Rattle.container_laws.specs.OpenLaws.{CommitsAreOpenedAgain, FilesGiveOne, FilesGiveTheirs, HeldIsWithin};

/// What a tree holds is a document within its limits: at most 64 objects, each of which a document can hold.
pub fn held_is_within()
    ensures { HeldIsWithin }
{}

/// What a file gives is one thing: no document, or one.
pub fn files_give_one()
    ensures { FilesGiveOne }
{}

/// The file of a document gives that document.
pub fn files_give_theirs()
    ensures { FilesGiveTheirs }
{}

/// The file that was made of a frame's commit is never a bad one, and what the frame has as which it is opened is the
/// commit's document again: the same objects in the same order.
pub fn commits_are_opened_again()
    ensures { CommitsAreOpenedAgain }
{}
