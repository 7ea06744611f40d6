//! What the history of a script says of the files that it saves and opens, and of the messages that came.

ghost use Rattle.script_run.specs.Again.{SavesAreOpenedAgain};
ghost use Rattle.script_run.specs.Came.{MessagesAreThoseThatCame};

use container_laws::open_laws::files_give_theirs;
use message_model::laws::frames_are_longest;
use store_model::disk::Disk;

/// Over a host that is faithful, whose disks follow the model, a file is opened as it was saved last: it has the
/// objects of the document whose commit was counted.
pub fn saves_are_opened_again<D: Disk>()
    ensures { SavesAreOpenedAgain ⟦<D as Disk>⟧ }
{
    files_give_theirs();
}

/// Of a server that has had one link, the messages that a script gave its container are the first of those among the
/// frames that the bytes which came on it are read as.
pub fn messages_are_those_that_came<D: Disk>()
    ensures { MessagesAreThoseThatCame D }
{
    frames_are_longest();
}
