//! How a program that only makes and lists files starts.

use crate::command_lines::{FILE, JSON, LIST, LONG, MAKE, first_line};
use crate::ends::{refuse_command, refuse_start};
use crate::making::make;
use crate::memory::keep_blocks;
use crate::new_file::NewFile;
use crate::usage::{answer_usage, have_hidden, refuse_words, told_words};
use clap::{ArgMatches, Error};
use std::alloc::AllocError;
use std::fs::File;
use std::process::ExitCode;
use std::rt::Runtime;
use std::{env, io};

/// What a command line asks for.
#[derive(Clone, Copy)]
enum Asked<'a> {
    /// A file of this path, made.
    Make(&'a str),
    /// The listing of a file of this path: whether as JSON, and whether in columns.
    List(&'a str, bool, bool),
}

/// What a parsed command line asks for.
fn asked_for<'a>(matches: &ArgMatches<'a>) -> Option<Asked<'a>> {
    let (name, given) = matches.subcommand()?;
    let path = given.get_str(FILE)?;
    if name == MAKE {
        Some(Asked::Make(path))
    } else if name == LIST {
        Some(Asked::List(path, given.get_flag(JSON), given.get_flag(LONG)))
    } else {
        None
    }
}

/// Tells what is wrong with the words of a command line, as they are told, or prints the help or the version that they
/// ask for.
fn answer_error<R: Runtime + AllocGlobal>(
    rt: &R,
    words: &[String],
    error: &Error,
) -> Result<ExitCode, AllocError> {
    if !have_hidden(words) {
        return Ok(answer_usage(rt, error));
    }
    let told = told_words(rt.alloc(), words)?;
    match first_line(rt.alloc())?.try_get_matches_from(told.as_slice()) {
        Ok(_) => Ok(refuse_words(rt)),
        Err(error) => Ok(answer_usage(rt, &error)),
    }
}

/// Makes or lists what a command line asks for.
fn run<R, E, F, T, L>(rt: &R, asked: Option<Asked<'_>>, write: F, tell: T, list: L) -> ExitCode
where
    R: Runtime<File = File> + AllocGlobal,
    E: Drop,
    F: FnOnce(&mut NewFile<'_, R>) -> Result<usize, E>,
    T: FnOnce(&str, &E) -> ExitCode,
    L: FnOnce(&str, bool, bool) -> ExitCode,
    requires writes { F.IsAlwaysCallable write }
    requires tells { T.IsAlwaysCallable tell }
    requires lists { L.IsAlwaysCallable list }
{
    match asked {
        Some(Asked::Make(path)) => make(rt, path, write, tell),
        Some(Asked::List(path, is_json, is_long)) => list(path, is_json, is_long),
        None => refuse_command(rt),
    }
}

/// Makes or lists what the words of a command line ask for, or tells what is wrong with them.
fn answer<R, E, F, T, L>(
    rt: &R,
    words: &[String],
    write: F,
    tell: T,
    list: L,
) -> Result<ExitCode, AllocError>
where
    R: Runtime<File = File> + AllocGlobal,
    E: Drop,
    F: FnOnce(&mut NewFile<'_, R>) -> Result<usize, E>,
    T: FnOnce(&str, &E) -> ExitCode,
    L: FnOnce(&str, bool, bool) -> ExitCode,
    requires writes { F.IsAlwaysCallable write }
    requires tells { T.IsAlwaysCallable tell }
    requires lists { L.IsAlwaysCallable list }
{
    match first_line(rt.alloc())?.try_get_matches_from(words) {
        Ok(matches) => Ok(run(rt, asked_for(&matches), write, tell, list)),
        Err(error) => answer_error(rt, words, &error),
    }
}

fn start<R, E, F, T, L>(rt: &R, write: F, tell: T, list: L) -> io::Result<ExitCode>
where
    R: Runtime<File = File> + AllocGlobal,
    E: Drop,
    F: FnOnce(&mut NewFile<'_, R>) -> Result<usize, E>,
    T: FnOnce(&str, &E) -> ExitCode,
    L: FnOnce(&str, bool, bool) -> ExitCode,
    requires writes { F.IsAlwaysCallable write }
    requires tells { T.IsAlwaysCallable tell }
    requires lists { L.IsAlwaysCallable list }
{
    let words: Vec<String> = env::args(rt)?.collect(rt.alloc())?;
    Ok(answer(rt, words.as_slice(), write, tell, list)?)
}

/// Makes the file of the path that the program's command line asks for, as `make` does, or has it listed, as JSON or in
/// columns where that is asked for; or tells what is wrong with the line, or prints the help or the version that it
/// asks for.
pub fn start_first<R, E, F, T, L>(rt: &R, write: F, tell: T, list: L) -> ExitCode
where
    R: Runtime<File = File> + AllocGlobal,
    E: Drop,
    F: FnOnce(&mut NewFile<'_, R>) -> Result<usize, E>,
    T: FnOnce(&str, &E) -> ExitCode,
    L: FnOnce(&str, bool, bool) -> ExitCode,
    requires writes { F.IsAlwaysCallable write }
    requires tells { T.IsAlwaysCallable tell }
    requires lists { L.IsAlwaysCallable list }
{
    keep_blocks(rt.alloc());
    match start(rt, write, tell, list) {
        Ok(code) => code,
        Err(error) => refuse_start(rt, &error),
    }
}
