//! Laws of servers. Each function is empty: its contract is the law, which is proved.

ghost use Rattle.server_model.specs.Laws.{ActsOnce, ClosedForGood, OtherSessionsStay, OthersStay, TakenInSession};
ghost use Rattle.server_model.specs.Laws.{UnwantedUnused, WantedUsed};
ghost use Rattle.server_model.specs.Stored.{PicturesAreRead, StoredIsWithin};

/// A call that was taken never acts again.
pub fn acts_once()
    ensures { ActsOnce }
{}

/// An activation that is closed stays closed, and is never made again.
pub fn closed_for_good()
    ensures { ClosedForGood }
{}

/// A call for one activation leaves the others as they are.
pub fn others_stay()
    ensures { OthersStay }
{}

/// A message of another session does nothing.
pub fn other_sessions_stay()
    ensures { OtherSessionsStay }
{}

/// A message that is taken is of the server's session.
pub fn taken_in_session()
    ensures { TakenInSession }
{}

/// A message that wants no object does the same with one as without, and doesn't use it.
pub fn unwanted_unused()
    ensures { UnwantedUnused }
{}

/// A message that wants an object of a class takes one of it, and uses it.
pub fn wanted_used()
    ensures { WantedUsed }
{}

/// What is stored of an object's content is within what may be stored of an object.
pub fn stored_is_within()
    ensures { StoredIsWithin }
{}

/// Of the picture that is stored, just the lines that the object shows are read.
pub fn pictures_are_read()
    ensures { PicturesAreRead }
{}
