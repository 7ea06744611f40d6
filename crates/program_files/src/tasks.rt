//! What a command line over files asks for.

use crate::command_lines::{CHECK, EXTRACT, FOLDER, FORCE, MAP, PACK};
use crate::edits::command_lines::{EDIT, MV, NAME, PUT, RM, ZERO};
use crate::edits::editing::{edit, put, remove, rename};
use crate::folders::extracting::extract;
use crate::folders::packing::pack;
use crate::running::{check, clean, get, list, map};
use clap::ArgMatches;
use program_ends::command_lines::{CLEAN, FILE, GET, JSON, LIST, LONG, MAKE, OUT, PATH};
use program_ends::ends::refuse;
use program_ends::making::{count_made, make};
use program_ends::memory::keep_blocks;
use std::fs::File;
use std::process::ExitCode;
use std::rt::Runtime;
use tell_forms::asked_listings::Listing;
use write_described::making::make_with_tree;

/// What a command line over files asks for.
#[derive(Clone, Copy)]
pub enum Task<'m, 'a> {
    /// A file of this path, made from standard input.
    Make(&'a str),
    /// The listing of a file of this path.
    List(&'a str, Listing),
    /// The bytes of a stream: the path of its file, and its own.
    Get(&'a str, &'a str),
    /// The tree of the file of one path, written to that of another.
    Clean(&'a str, &'a str),
    /// What is wrong with the files of these paths, and whether that is told as JSON.
    Check(&'m [&'a str], bool),
    /// The map of a file of this path.
    Map(&'a str),
    /// A folder, made of a file: the file's path, the folder's, those of what is made of it where not all is, and
    /// whether files that stand there are replaced.
    Extract(&'a str, &'a str, Option<&'m [&'a str]>, bool),
    /// A file of one path, made of the folder of another: that of the folder, and that of the file.
    Pack(&'a str, &'a str),
    /// The file of a path, changed by standard input's lines; whether what is freed is zeroed.
    Edit(&'a str, bool),
    /// Standard input, put into a stream: the path of its file, its own, and whether what is freed is zeroed.
    Put(&'a str, &'a str, bool),
    /// What stands at a path of a file, removed: the path of the file, that in it, and whether what is freed is zeroed.
    Remove(&'a str, &'a str, bool),
    /// What stands at a path of a file, renamed: the path of the file, that in it, the name, and whether what is freed
    /// is zeroed.
    Rename(&'a str, &'a str, &'a str, bool),
}

impl<'m, 'a> Task<'m, 'a> {
    /// What a parsed command line asks for; none where it names no command over files.
    pub fn of(matches: &'m ArgMatches<'a>) -> Option<Task<'m, 'a>> {
        let (name, given) = matches.subcommand()?;
        if name == MAKE {
            making(given)
        } else if name == LIST {
            listing(given)
        } else if name == GET {
            getting(given)
        } else if name == CLEAN {
            cleaning(given)
        } else if name == CHECK {
            checking(given)
        } else if name == MAP {
            mapping(given)
        } else if name == EXTRACT {
            extracting(given)
        } else if name == PACK {
            packing(given)
        } else {
            changing(name, given)
        }
    }

    /// Does what is asked for, and gives the status to end with. Where standard error is watched, as a terminal is, it
    /// tells there how far an extraction has come.
    pub fn run<R: Runtime<File = File> + AllocGlobal>(self, rt: &R, is_watched: bool) -> ExitCode {
        keep_blocks(rt.alloc());
        match self {
            Task::Make(path) => make_described(rt, path),
            Task::List(path, listing) => list(rt, path, listing),
            Task::Get(path, word) => get(rt, path, word),
            Task::Clean(path, out) => clean(rt, path, out),
            Task::Check(paths, is_json) => check(rt, paths, is_json),
            Task::Map(path) => map(rt, path),
            Task::Extract(path, folder, Some(words), is_forced) => {
                extract(rt, path, folder, words, is_forced, is_watched)
            }
            Task::Extract(path, folder, None, is_forced) => {
                extract(rt, path, folder, &[], is_forced, is_watched)
            }
            Task::Pack(folder, path) => pack(rt, folder, path),
            Task::Edit(path, is_zeroed) => edit(rt, path, is_zeroed),
            Task::Put(path, word, is_zeroed) => put(rt, path, word, is_zeroed),
            Task::Remove(path, word, is_zeroed) => remove(rt, path, word, is_zeroed),
            Task::Rename(path, word, name, is_zeroed) => rename(rt, path, word, name, is_zeroed),
        }
    }
}

/// Makes the file that standard input describes.
fn make_described<R: Runtime<File = File> + AllocGlobal>(rt: &R, path: &str) -> ExitCode {
    make(
        rt,
        path,
        |new| count_made(make_with_tree(rt.alloc(), &mut rt.reader(), new)),
        |path, fault| refuse(rt, &fault.report(path)),
    )
}

fn making<'m, 'a>(made: &'m ArgMatches<'a>) -> Option<Task<'m, 'a>> {
    Some(Task::Make(made.get_str(FILE)?))
}

fn listing<'m, 'a>(listed: &'m ArgMatches<'a>) -> Option<Task<'m, 'a>> {
    Some(Task::List(
        listed.get_str(FILE)?,
        Listing::of(listed.get_flag(JSON), listed.get_flag(LONG)),
    ))
}

fn getting<'m, 'a>(got: &'m ArgMatches<'a>) -> Option<Task<'m, 'a>> {
    Some(Task::Get(got.get_str(FILE)?, got.get_str(PATH)?))
}

fn cleaning<'m, 'a>(cleaned: &'m ArgMatches<'a>) -> Option<Task<'m, 'a>> {
    Some(Task::Clean(cleaned.get_str(FILE)?, cleaned.get_str(OUT)?))
}

fn checking<'m, 'a>(checked: &'m ArgMatches<'a>) -> Option<Task<'m, 'a>> {
    Some(Task::Check(checked.get_strs(FILE)?, checked.get_flag(JSON)))
}

fn mapping<'m, 'a>(mapped: &'m ArgMatches<'a>) -> Option<Task<'m, 'a>> {
    Some(Task::Map(mapped.get_str(FILE)?))
}

fn extracting<'m, 'a>(extracted: &'m ArgMatches<'a>) -> Option<Task<'m, 'a>> {
    Some(Task::Extract(
        extracted.get_str(FILE)?,
        extracted.get_str(FOLDER)?,
        extracted.get_strs(PATH),
        extracted.get_flag(FORCE),
    ))
}

fn packing<'m, 'a>(packed: &'m ArgMatches<'a>) -> Option<Task<'m, 'a>> {
    Some(Task::Pack(packed.get_str(FOLDER)?, packed.get_str(FILE)?))
}

/// What a command of this name that changes a file asks for, if it is one.
fn changing<'m, 'a>(name: &str, given: &'m ArgMatches<'a>) -> Option<Task<'m, 'a>> {
    if name == EDIT {
        Some(Task::Edit(given.get_str(FILE)?, given.get_flag(ZERO)))
    } else if name == PUT {
        putting(given)
    } else if name == RM {
        removing(given)
    } else if name == MV {
        renaming(given)
    } else {
        None
    }
}

fn putting<'m, 'a>(put: &'m ArgMatches<'a>) -> Option<Task<'m, 'a>> {
    Some(Task::Put(put.get_str(FILE)?, put.get_str(PATH)?, put.get_flag(ZERO)))
}

fn removing<'m, 'a>(removed: &'m ArgMatches<'a>) -> Option<Task<'m, 'a>> {
    Some(Task::Remove(
        removed.get_str(FILE)?,
        removed.get_str(PATH)?,
        removed.get_flag(ZERO),
    ))
}

fn renaming<'m, 'a>(renamed: &'m ArgMatches<'a>) -> Option<Task<'m, 'a>> {
    Some(Task::Rename(
        renamed.get_str(FILE)?,
        renamed.get_str(PATH)?,
        renamed.get_str(NAME)?,
        renamed.get_flag(ZERO),
    ))
}
