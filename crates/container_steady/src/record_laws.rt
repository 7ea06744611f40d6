//! Laws of a steady record. Each function is empty: its contract is the law, which is proved.

ghost use Rattle.container_steady.specs.Made.{TakenIsMade};
ghost use Rattle.container_steady.specs.Opened.{FilesAreOpenedSo};
ghost use Rattle.container_queues.specs.Steady.{ClosesAreOpen, CommitsAnsweredContents, DocumentsHold};
ghost use Rattle.container_queues.specs.Steady.{FullByTheFileAlone, OneObjectAnActivation, SteadyFromTheStart};
ghost use Rattle.container_steady.specs.Taken.{CommandsAreTakenSo};

/// A container without frames, objects and servers has a steady record.
pub fn steady_from_the_start()
    ensures { SteadyFromTheStart }
{}

/// Where a record is steady, a commit has of each object that isn't passive the content that it answered in this save.
pub fn commits_answered_contents()
    ensures { CommitsAnsweredContents }
{}

/// Where a record is steady, an activation is of one object.
pub fn one_object_an_activation()
    ensures { OneObjectAnActivation }
{}

/// Where a record is steady, a close that is to be answered is the last call of its activation, and its storage may be
/// written into.
pub fn closes_are_open()
    ensures { ClosesAreOpen }
{}

/// Where a record is steady, what a frame has is a document: as many objects as one may have, each within its limits.
pub fn documents_hold()
    ensures { DocumentsHold }
{}

/// Where a record is steady, there is no room for a frame's document only where its tree is past what a file holds.
pub fn full_by_the_file_alone()
    ensures { FullByTheFileAlone }
{}

/// Each command that is taken has its object and its frame, and makes what its case says.
pub fn commands_are_taken_so()
    ensures { CommandsAreTakenSo }
{}

/// What a command that is taken makes is of one of a few shapes.
pub fn taken_is_made()
    ensures { TakenIsMade }
{}

/// Each file that is opened has a name that no frame bears, a size, a document within its limits, and numbers for its
/// objects, and makes what is said of it.
pub fn files_are_opened_so()
    ensures { FilesAreOpenedSo }
{}
