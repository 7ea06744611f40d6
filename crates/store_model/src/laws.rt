//! Laws on journals. Each function is empty: its contract is the law, which is proved.

ghost use Rattle.store_model.specs.Laws.{CommitsStand, FitIs};

/// The blocks of an open journal fit the document area exactly where their numbers rise, each begins below the new
/// size, and no byte below it is past the area's end and in none of them.
pub fn fit_is()
    ensures { FitIs }
{}

/// Whatever two documents are, the journal that a commit writes from the one to the other stands for the other once its
/// gate is open, so no commit of a store leaves a damaged journal.
pub fn commits_stand()
    ensures { CommitsStand }
{}
