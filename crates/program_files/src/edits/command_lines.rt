//! The command lines of the commands that change a file in place, and the help that they print.

use program_ends::command_lines::{Argument, FILE, Kind, PATH, Row};

/// The names of the commands and of their other arguments.
pub(crate) const EDIT: &str = "edit";

pub(crate) const PUT: &str = "put";

pub(crate) const RM: &str = "rm";

pub(crate) const MV: &str = "mv";

pub(crate) const NAME: &str = "name";

pub(crate) const ZERO: &str = "zero";

const ABOUT_EDIT: &str = "Changes a compound file in place, by lines on standard input";

const ABOUT_PUT: &str = "Puts the bytes of standard input into a stream of a compound file";

const ABOUT_RM: &str = "Removes a stream or a storage of a compound file";

const ABOUT_MV: &str = "Gives a stream or a storage of a compound file another name";

const CHANGES: &str = "Each line asks for one change:
  stream PATH HEX           a stream has these bytes, or none for -
  fill PATH COUNT HH        a stream has COUNT bytes that are all HH
  file PATH NAME            a stream has the bytes of the file NAME, of 1 to 64 characters
  storage PATH [CLASS]      a new storage, of this class id or of none
  remove PATH               what stands there goes, a storage with all that it holds
  rename PATH NAME          what stands there gets another name in its storage
  class PATH ID             a storage has this class id; / alone is the root
  state PATH BITS           a storage has these state bits
A stream that isn't there is made; one that is keeps its name as it is spelled. Words are parted
by one space. Empty lines and lines that begin with # are skipped. The names of a PATH are joined
by /. A byte up to 32, or 127, is written \\ and two lower-case hexadecimal digits.

All lines are read first, and then the files that they name. They are carried out one after
another, and all at once: where one is refused, FILE stays as it was. What is written goes through
the journal FILE.journal, so that whatever stops it, FILE is the one from before it or the new one;
a journal that a crash left is carried out first. It prints how many bytes FILE has, and how many
blocks of 512 bytes were written.

Example: echo 'rename Draft Final' | olecon edit letter.doc";

const PUTS: &str =
    "A stream that isn't there is made; its storage has to be there. The names of PATH are joined by /
and stand as list prints them. FILE is changed as edit changes it.

Example: olecon put letter.doc Notes < notes.txt";

const REMOVES: &str =
    "A storage goes with all that it holds. What is freed keeps its bytes until they are written over, but
with --zero. The names of PATH are joined by / and stand as list prints them. FILE is changed as
edit changes it.

Example: olecon rm --zero letter.doc Draft";

const RENAMES: &str =
    "It stays in its storage. Its own name spelled otherwise changes the spelling; the name of another
there is Exists. The names of PATH are joined by /, and PATH and NAME stand as list prints them. FILE
is changed as edit changes it.

Example: olecon mv letter.doc Draft Final";

/// The file that a command changes.
const FILE_CHANGED: Argument<'static> = Argument {
    name: FILE,
    help: "The file to change",
    kind: Kind::Needed("FILE"),
};

/// Whether zeros are made of what is freed.
const ZEROED: Argument<'static> = Argument {
    name: ZERO,
    help: "Makes zeros of what is freed",
    kind: Kind::Flag,
};

/// The command that makes the changes of standard input's lines.
pub(crate) const EDIT_ROW: Row<'static> = Row {
    name: EDIT,
    about: ABOUT_EDIT,
    after: CHANGES,
    arguments: &[FILE_CHANGED, ZEROED],
};

/// The command that puts standard input into a stream.
pub(crate) const PUT_ROW: Row<'static> = Row {
    name: PUT,
    about: ABOUT_PUT,
    after: PUTS,
    arguments: &[
        FILE_CHANGED,
        Argument {
            name: PATH,
            help: "The stream",
            kind: Kind::Needed("PATH"),
        },
        ZEROED,
    ],
};

/// The command that removes what stands at a path.
pub(crate) const RM_ROW: Row<'static> = Row {
    name: RM,
    about: ABOUT_RM,
    after: REMOVES,
    arguments: &[
        FILE_CHANGED,
        Argument {
            name: PATH,
            help: "The stream or the storage",
            kind: Kind::Needed("PATH"),
        },
        ZEROED,
    ],
};

/// The command that renames what stands at a path.
pub(crate) const MV_ROW: Row<'static> = Row {
    name: MV,
    about: ABOUT_MV,
    after: RENAMES,
    arguments: &[
        FILE_CHANGED,
        Argument {
            name: PATH,
            help: "The stream or the storage",
            kind: Kind::Needed("PATH"),
        },
        Argument {
            name: NAME,
            help: "The name that it gets",
            kind: Kind::Needed("NAME"),
        },
        ZEROED,
    ],
};
