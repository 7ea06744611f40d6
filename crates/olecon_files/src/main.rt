//! The program `olecon` with its commands over files alone, which is built sooner: it makes, lists and cleans OLE
//! compound files.
#![tactic(auto)]

use clap::{ArgMatches, Error};
use program_ends::ends::{refuse_command, refuse_start};
use program_ends::usage::{answer_usage, have_hidden, refuse_words, told_words};
use program_files::command_lines::command_line;
use program_files::tasks::Task;
use std::alloc::AllocError;
use std::fs::File;
use std::io::IsTerminal;
use std::process::ExitCode;
use std::rt::Runtime;
use std::{env, io};

/// Does what a command line asks for.
fn run<R: Runtime<File = File> + AllocGlobal>(
    rt: &R,
    matches: &ArgMatches<'_>,
    is_watched: bool,
) -> ExitCode {
    match Task::of(matches) {
        Some(task) => task.run(rt, is_watched),
        None => refuse_command(rt),
    }
}

/// Tells what is wrong with the words of a command line, as they are told, or prints the help or the version that they
/// ask for.
fn answer_error<R: Runtime + AllocGlobal>(
    rt: &R,
    words: &[String],
    error: &Error,
) -> Result<ExitCode, AllocError> {
    if !have_hidden(words) {
        return Ok(answer_usage(rt, error));
    }
    let told = told_words(rt.alloc(), words)?;
    match command_line(rt.alloc())?.try_get_matches_from(told.as_slice()) {
        Ok(_) => Ok(refuse_words(rt)),
        Err(error) => Ok(answer_usage(rt, &error)),
    }
}

/// Does what the words of a command line ask for, or tells what is wrong with them.
fn answer<R: Runtime<File = File> + AllocGlobal>(
    rt: &R,
    words: &[String],
    is_watched: bool,
) -> Result<ExitCode, AllocError> {
    match command_line(rt.alloc())?.try_get_matches_from(words) {
        Ok(matches) => Ok(run(rt, &matches, is_watched)),
        Err(error) => answer_error(rt, words, &error),
    }
}

fn start<R: Runtime<File = File> + AllocGlobal>(rt: &R, is_watched: bool) -> io::Result<ExitCode> {
    let words: Vec<String> = env::args(rt)?.collect(rt.alloc())?;
    Ok(answer(rt, words.as_slice(), is_watched)?)
}

fn main(rt: HostRuntime) -> ExitCode {
    match start(&rt, rt.stderr().is_terminal()) {
        Ok(code) => code,
        Err(error) => refuse_start(&rt, &error),
    }
}
