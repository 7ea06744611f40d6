//! The command lines of the commands over files, and the help that they print.

use clap::{Arg, ArgAction, Command};
use std::alloc::{AllocError, Global};

/// The name of the argument for the file that a command reads or makes.
pub const FILE: &str = "file";

/// The program's version.
const VERSION: &str = "0.1.0";

/// The names of the commands and of their other arguments.
pub const MAKE: &str = "make";

pub const LIST: &str = "list";

pub const GET: &str = "get";

pub const CLEAN: &str = "clean";

pub const PATH: &str = "path";

pub const OUT: &str = "out";

pub const JSON: &str = "json";

pub const LONG: &str = "long";

const ABOUT: &str = "Makes, lists and cleans OLE compound files, and runs compound documents";

const ABOUT_MAKE: &str = "Makes a compound file from a description on standard input";

const ABOUT_LIST: &str = "Lists the storages and streams of a compound file";

const ABOUT_GET: &str = "Writes the bytes of a stream of a compound file to standard output";

const ABOUT_CLEAN: &str =
    "Writes a compound file anew, with its storages and streams and nothing else";

const LINES: &str = "Each line of the description asks for one thing:
  storage PATH              a storage
  stream PATH HEX           a stream of these bytes, or of none for -
  fill PATH COUNT HH        a stream of COUNT bytes that are all HH
Words are parted by one space. Empty lines and lines that begin with # are skipped.
The names of a PATH are joined by /. A byte up to 32, or 127, is written \\ and two
lower-case hexadecimal digits.

FILE is replaced only once all of it is written; until then the old one stays as it was. It isn't
replaced where a save of it was cut off, so that FILE.journal is open: JournalOpen. Its owner, group
and permissions are kept where they can be, or it gets fewer rights; access control lists,
attributes and its other hard names aren't.

Example: echo 'stream Greeting 68656c6c6f' | olecon make greeting.ole";

const LISTED: &str =
    "Each line tells one entry: the root and its class id, a storage with its path and class id, or
a stream with its path and its size in bytes, depth first, in the order of names. With --json it
is one JSON value instead: an array of objects, one for each such line. With --long the sizes
stand in a column, and in brackets what is known of a class id or of a stream's name.

Example: olecon list --json mail.msg | jq -r '.[] | select(.size > 4096) | .path'";

const NAMES: &str =
    "The names of PATH are joined by / and stand as list prints them: a byte up to 32, or 127,
is written \\ and two lower-case hexadecimal digits.

Example: olecon get mail.msg __properties_version1.0 > properties";

const LEFT_BEHIND: &str =
    "What stands in free sectors or behind a stream's end, times, and entries that nothing
links to are left behind: deleted text often is still there. OUT may be FILE itself. It is
replaced only once all of it is written; until then the old one stays as it was. It isn't
replaced where a save of it was cut off, so that OUT.journal is open: JournalOpen. Its owner,
group and permissions are kept where they can be, or it gets fewer rights; access control lists,
attributes and its other hard names aren't.

Example: olecon clean letter.doc letter.doc";

const STATUSES: &str =
    "Status: 0, 2 for a command line that is refused, 3 for a file or a line that is refused or a run that stops";

/// How an argument is given.
#[derive(Clone, Copy)]
pub enum Kind<'a> {
    /// It can't be left out. The help has this word for it.
    Needed(&'a str),
    /// It is given once or several times. The help has this word for it.
    Several(&'a str),
    /// It is given as often as wanted, or not at all. The help has this word for it.
    Any(&'a str),
    /// It is given or not.
    Flag,
    /// It is given or not, and never together with the one of this name.
    FlagWithout(&'a str),
}

/// An argument: the name by which it is read, what the help says of it, and how it is given.
#[derive(Clone, Copy)]
pub struct Argument<'a> {
    pub name: &'a str,
    pub help: &'a str,
    pub kind: Kind<'a>,
}

/// A command: its name, what the help says of it before its arguments and behind them, and these.
#[derive(Clone, Copy)]
pub struct Row<'a> {
    pub name: &'a str,
    pub about: &'a str,
    pub after: &'a str,
    pub arguments: &'a [Argument<'a>],
}

/// The file that a command reads.
pub const FILE_READ: Argument<'static> = Argument {
    name: FILE,
    help: "The file to read",
    kind: Kind::Needed("FILE"),
};

/// The file that a command makes.
pub const FILE_MADE: Argument<'static> = Argument {
    name: FILE,
    help: "The file to write",
    kind: Kind::Needed("FILE"),
};

/// Whether what a command tells is one JSON value.
pub const AS_JSON: Argument<'static> = Argument {
    name: JSON,
    help: "Writes one JSON value",
    kind: Kind::Flag,
};

/// The commands that make and list files. What is proved of a command's making is proved once, of any row.
const FIRST: &[Row<'static>] = &[
    Row {
        name: MAKE,
        about: ABOUT_MAKE,
        after: LINES,
        arguments: &[FILE_MADE],
    },
    Row {
        name: LIST,
        about: ABOUT_LIST,
        after: LISTED,
        arguments: &[
            FILE_READ,
            AS_JSON,
            Argument {
                name: LONG,
                help: "Writes columns for eyes",
                kind: Kind::FlagWithout(JSON),
            },
        ],
    },
];

/// The commands that read and clean files.
const ROWS: &[Row<'static>] = &[
    Row {
        name: GET,
        about: ABOUT_GET,
        after: NAMES,
        arguments: &[
            FILE_READ,
            Argument {
                name: PATH,
                help: "The stream to write",
                kind: Kind::Needed("PATH"),
            },
        ],
    },
    Row {
        name: CLEAN,
        about: ABOUT_CLEAN,
        after: LEFT_BEHIND,
        arguments: &[
            FILE_READ,
            Argument {
                name: OUT,
                help: "The file to write",
                kind: Kind::Needed("OUT"),
            },
        ],
    },
];

fn needed<'a>(alloc: Global, row: &Argument<'a>, word: &'a str) -> Arg<'a> {
    Arg::new(alloc, row.name)
        .value_name(word)
        .help(row.help)
        .required(true)
}

fn any<'a>(alloc: Global, row: &Argument<'a>, word: &'a str) -> Arg<'a> {
    Arg::new(alloc, row.name)
        .value_name(word)
        .help(row.help)
        .num_args(1..)
        .action(ArgAction::Append)
}

fn flag<'a>(alloc: Global, row: &Argument<'a>) -> Arg<'a> {
    Arg::new(alloc, row.name)
        .long(row.name)
        .help(row.help)
        .action(ArgAction::SetTrue)
}

fn argument_of<'a>(alloc: Global, row: &Argument<'a>) -> Result<Arg<'a>, AllocError> {
    match row.kind {
        Kind::Needed(word) => Ok(needed(alloc, row, word)),
        Kind::Several(word) => Ok(any(alloc, row, word).required(true)),
        Kind::Any(word) => Ok(any(alloc, row, word)),
        Kind::Flag => Ok(flag(alloc, row)),
        Kind::FlagWithout(other) => flag(alloc, row).conflicts_with(other),
    }
}

// A value of many fields is spelled out at each step of the proof of a function that holds one. So such a function
// takes few steps, and this one, which has the way out by an error, is of any type.
/// Adds an item that was made.
fn add<T: Drop>(items: &mut Vec<T>, made: Result<T, AllocError>) -> Result<(), AllocError> {
    items.push(made?)?;
    Ok(())
}

fn push_argument<'a>(
    alloc: Global,
    row: &Argument<'a>,
    arguments: &mut Vec<Arg<'a>>,
) -> Result<(), AllocError> {
    add(arguments, argument_of(alloc, row))
}

fn arguments_of<'a>(alloc: Global, row: &Row<'a>) -> Result<Vec<Arg<'a>>, AllocError> {
    let mut arguments = Vec::new(alloc);
    for argument in row.arguments {
        push_argument(alloc, argument, &mut arguments)?;
    }
    Ok(arguments)
}

/// A command with no argument and no command yet.
fn bare<'a>(alloc: Global, name: &'a str, about: &'a str, after: &'a str) -> Command<'a> {
    Command::new(alloc, name).about(about).after_help(after)
}

/// The command of a row, with its arguments if they were made.
fn command_of<'a>(
    alloc: Global,
    row: &Row<'a>,
    arguments: Result<Vec<Arg<'a>>, AllocError>,
) -> Result<Command<'a>, AllocError> {
    match arguments {
        Ok(arguments) => bare(alloc, row.name, row.about, row.after).args(arguments),
        Err(error) => Err(error),
    }
}

fn push_command<'a>(
    alloc: Global,
    row: &Row<'a>,
    commands: &mut Vec<Command<'a>>,
) -> Result<(), AllocError> {
    add(commands, command_of(alloc, row, arguments_of(alloc, row)))
}

fn push_commands<'a>(
    alloc: Global,
    rows: &[Row<'a>],
    commands: &mut Vec<Command<'a>>,
) -> Result<(), AllocError> {
    for row in rows {
        push_command(alloc, row, commands)?;
    }
    Ok(())
}

fn push_all<'a>(
    alloc: Global,
    rows: &[Row<'a>],
    commands: &mut Vec<Command<'a>>,
) -> Result<(), AllocError> {
    push_commands(alloc, FIRST, commands)?;
    push_commands(alloc, ROWS, commands)?;
    push_commands(alloc, rows, commands)
}

/// The commands `make` and `list` alone.
fn first_commands<'a>(alloc: Global) -> Result<Vec<Command<'a>>, AllocError> {
    let mut commands = Vec::new(alloc);
    push_commands(alloc, FIRST, &mut commands)?;
    Ok(commands)
}

/// The commands `make`, `list`, `get` and `clean`, and those of these rows behind them.
fn commands_of<'a>(alloc: Global, rows: &[Row<'a>]) -> Result<Vec<Command<'a>>, AllocError> {
    let mut commands = Vec::new(alloc);
    push_all(alloc, rows, &mut commands)?;
    Ok(commands)
}

/// The program with no command yet.
fn program<'a>(alloc: Global) -> Command<'a> {
    bare(alloc, "olecon", ABOUT, STATUSES)
        .version(VERSION)
        .subcommand_required(true)
}

/// The program with these commands if they were made.
fn program_of<'a>(
    alloc: Global,
    commands: Result<Vec<Command<'a>>, AllocError>,
) -> Result<Command<'a>, AllocError> {
    match commands {
        Ok(commands) => program(alloc).subcommands(commands),
        Err(error) => Err(error),
    }
}

/// The command line of the program `olecon` with `make` and `list` alone.
///
/// Refused for want of memory alone.
pub fn first_line<'a>(alloc: Global) -> Result<Command<'a>, AllocError> {
    program_of(alloc, first_commands(alloc))
}

/// The command line of the program `olecon` with `make`, `list`, `get` and `clean`, and the commands of these rows
/// behind them. A program with more commands adds them.
///
/// Refused for want of memory alone.
pub fn command_line<'a>(alloc: Global, rows: &[Row<'a>]) -> Result<Command<'a>, AllocError> {
    program_of(alloc, commands_of(alloc, rows))
}
