//! The command lines of the commands between files and folders and of maps, and the help that they print.

use crate::edits::command_lines::{EDIT_ROW, MV_ROW, PUT_ROW, RM_ROW};
use clap::Command;
pub use program_ends::command_lines::FILE;
use program_ends::command_lines::{self, AS_JSON, Argument, FILE_MADE, FILE_READ, Kind, PATH, Row};
use std::alloc::{AllocError, Global};

/// The names of the commands and of their other arguments.
pub const CHECK: &str = "check";

pub const MAP: &str = "map";

pub const EXTRACT: &str = "extract";

pub const PACK: &str = "pack";

pub const FOLDER: &str = "folder";

pub const FORCE: &str = "force";

const ABOUT_CHECK: &str = "Tells what is wrong with compound files, and where";

const ABOUT_MAP: &str = "Shows what each sector of a compound file is, and how much of it is free";

const ABOUT_EXTRACT: &str =
    "Makes a folder of a compound file: a folder for each storage, a file for each stream";

const ABOUT_PACK: &str = "Makes a compound file of a folder: extract the other way round";

const SECTORS: &str =
    "A row shows 64 sectors of 512 bytes, a character each, behind the number of the first; below the
rows stands what the characters mean, and how many sectors each stands for. A stream's last
sector is told apart, as what stands behind its end may be deleted text. The last line counts
the bytes of free sectors, those in the sectors of streams and of the mini stream that are no
stream's, and those past all sectors that the FAT knows. clean leaves out what these bytes hold: in
the file that it writes they are zeros.

Example: olecon map letter.doc";

const PLACES: &str =
    "Prints ok where the file holds a tree; of one that is cut within a sector, what is missing there
reads as zeros. Else one line is printed with the fault's name, and where it is, as far as that is
found: in the header, in the lists of the FAT and the DIFAT, in the chain of
the directory, of the mini FAT, of the mini stream or of a stream, with the sector whose entry is
at fault and the number that stands there, or in an entry of the directory. An entry is told by its
number, the root's being 0, and by its path as far as its names can be read, as list spells it; one
that ends with a slash is that of the storage around it. Last comes the byte of the file at which
the number stands, or the entry begins. The fault is told on standard error besides, as by the
other commands.

With --json it is one JSON value instead, {\"ok\":true} or an object with the members ok, fault, part,
sector, to, entry, path, byte and other (the entry whose sector or whose name it is too); each is
null where it isn't known.

Of several files a line each is printed, in the order in which they are given, the name and a colon
before what is told of one; a value each has a first member file. All are checked, also those behind one
that is refused, and the status is 3 where one is. Of one that can't be read standard error alone tells.

Example: olecon check --json letter.doc | jq -r .fault
Example: olecon check *.doc | grep -v ': ok$'";

const FOLDERS: &str =
    "With a PATH just what stands there is made, a stream or a storage with all below it, and the folders
of the storages on the way; of several, what is on or below one of them. Each stands in FOLDER where it
stands without a PATH. Where nothing stands at one, nothing is made.

Names are spelled as list prints them, and a dot at a name's end as \\2e, so that none leads
out of FOLDER. A storage whose class id or state bits aren't zero has them in a file !storage
of its folder; no stream has such a name. FOLDER is made if it isn't there.

What stands in FOLDER already is left as it was, and stops the command, unless --force is
given: then a file or a link of such a name is replaced, and a folder is taken as it is. A file that
is replaced keeps its owner, group and permissions where they can be kept, and one that may not be
written stops the command. How many folders and files were made is printed, FOLDER among them, also
where it was stopped: then these are the first in the order in which list prints them. On a terminal
each thousandth is told as it is made.

Example: olecon extract mail.msg mail
Example: olecon extract report.doc parts ObjectPool '\\05SummaryInformation'";

const PACKED: &str =
    "Each folder in FOLDER becomes a storage and each file a stream, under the names that extract
spells so: a backslash and two lower-case hexadecimal digits are a byte up to 32, 127 or a dot.
A file !storage of a folder has the class id and the state bits of its storage, which are zero
without it. Links, and what is neither a folder nor a file, are refused.

FILE is replaced only once all of it is written; until then the old one stays as it was. It isn't
replaced where a save of it was cut off, so that FILE.journal is open: JournalOpen. Its owner, group
and permissions are kept where they can be, or it gets fewer rights; access control lists,
attributes and its other hard names aren't.

Example: olecon pack mail mail.msg";

/// The commands of this crate and those that change a file in place, behind those of `program_ends`.
const ROWS: &[Row<'static>] = &[
    Row {
        name: CHECK,
        about: ABOUT_CHECK,
        after: PLACES,
        arguments: &[
            Argument {
                name: FILE,
                help: "The files to check",
                kind: Kind::Several("FILE"),
            },
            AS_JSON,
        ],
    },
    Row {
        name: MAP,
        about: ABOUT_MAP,
        after: SECTORS,
        arguments: &[FILE_READ],
    },
    Row {
        name: EXTRACT,
        about: ABOUT_EXTRACT,
        after: FOLDERS,
        arguments: &[
            FILE_READ,
            Argument {
                name: FOLDER,
                help: "The folder to make",
                kind: Kind::Needed("FOLDER"),
            },
            Argument {
                name: PATH,
                help: "What is made of it; without one, all",
                kind: Kind::Any("PATH"),
            },
            Argument {
                name: FORCE,
                help: "Replaces what stands in FOLDER under such a name",
                kind: Kind::Flag,
            },
        ],
    },
    Row {
        name: PACK,
        about: ABOUT_PACK,
        after: PACKED,
        arguments: &[
            Argument {
                name: FOLDER,
                help: "The folder to read",
                kind: Kind::Needed("FOLDER"),
            },
            FILE_MADE,
        ],
    },
    EDIT_ROW,
    PUT_ROW,
    RM_ROW,
    MV_ROW,
];

/// The command line of the program `olecon` with its commands over files: `make`, `list`, `get`, `clean`, `check`,
/// `map`, `extract`, `pack`, `edit`, `put`, `rm` and `mv`. A program with more commands adds them. `Task::of` tells
/// what a parsed one asks for.
///
/// Refused for want of memory alone.
pub fn command_line<'a>(alloc: Global) -> Result<Command<'a>, AllocError> {
    command_lines::command_line(alloc, ROWS)
}
