//! What a commit counts, and whom it tells.

ghost use Rattle.container_laws.specs.CommitLaws.{CommitCounts, CommitTells, HandOffWaits, SaveWaits};

/// A commit, whether it is done or was in doubt and is resolved as kept, counts the objects of its frame in their
/// order, each with its work content while it is passive, else with the content that it answered in this save, under
/// the number of the frame's save, and counts nothing else. After it each object's work content is what was counted.
pub fn commit_counts()
    ensures { CommitCounts }
{}

/// A commit, done or resolved as kept, asks for one call to each activation of its frame that has no pending one, which
/// tells the number of the frame's save, and for nothing else.
pub fn commit_tells()
    ensures { CommitTells }
{}

/// Under another name a save asks for the objects' storages only when each of them that isn't passive has answered its
/// content.
pub fn hand_off_waits()
    ensures { HandOffWaits }
{}

/// A save goes on to its commit only when each object of the frame that isn't passive has answered its content; under
/// another name, only when each of them has given its storage away.
pub fn save_waits()
    ensures { SaveWaits }
{}
