//! Journals beside files: where one is open, a save of the file was cut off, and what the journal holds is still to be
//! put into it. So the file may be half written, and a file that took its place would be written over.
//!
//! A file has a journal by each of its names: the path that is asked for, and each to which a link leads from there.

use crate::ends::refuse;
use crate::links::{MOST_LINKS, next_name};
use std::alloc::AllocError;
use std::fs;
use std::io::{self, ErrorKind, Read};
use std::path::PathBuf;
use std::process::ExitCode;
use std::rt::{Files, Runtime};
use text_words::report::Report;
use text_words::told::Told;

/// How many bytes an open journal has at least, of which the first is its gate.
const HEADER: usize = 9;

/// The gate of a journal that is open.
const OPEN: u8 = 1;

/// What a journal tells of a file.
#[derive(Drop)]
enum Journal {
    /// It isn't there, or it is closed.
    Closed,
    /// The one of this name is open.
    Open(String),
    /// The one of this name can't be read.
    Unreadable(String),
}

/// Whether a path leads to a regular file. What can't be looked at is none: nothing can be made beside it either.
fn is_file<R: Files>(rt: &R, path: &str) -> bool {
    match fs::metadata(rt, path) {
        Ok(found) => found.is_file(),
        Err(_) => false,
    }
}

/// Whether the gate of a journal is open. One that is too short for a gate was never open.
fn has_open_gate<R: Files>(rt: &R, journal: &str) -> io::Result<bool> {
    let mut head = [0; HEADER];
    let mut file = fs::open(rt, journal)?;
    match file.read_exact(&mut head) {
        Ok(()) => Ok(head[0] == OPEN),
        Err(error) if error.kind() == ErrorKind::UnexpectedEof => Ok(false),
        Err(error) => Err(error),
    }
}

/// What the journal of a name tells.
fn journal_of<R: Files + AllocGlobal>(rt: &R, name: &str) -> Result<Journal, AllocError> {
    let journal = format!(in rt.alloc(); "{name}.journal")?;
    if !is_file(rt, journal.as_str()) {
        return Ok(Journal::Closed);
    }
    match has_open_gate(rt, journal.as_str()) {
        Ok(true) => Ok(Journal::Open(journal)),
        Ok(false) => Ok(Journal::Closed),
        Err(_) => Ok(Journal::Unreadable(journal)),
    }
}

/// The name that the link of a name leads to. One that can't be read leads nowhere; whoever follows it tells.
fn next_journal<R: Files + AllocGlobal>(
    rt: &R,
    name: &PathBuf,
) -> Result<Option<PathBuf>, AllocError> {
    match next_name(rt, name) {
        Ok(next) => Ok(next),
        Err(error) if error.kind() == ErrorKind::OutOfMemory => Err(AllocError),
        Err(_) => Ok(None),
    }
}

/// What the journals of a path tell: the first that isn't closed.
fn journals_of<R: Files + AllocGlobal>(rt: &R, path: &str) -> Result<Journal, AllocError> {
    let mut name = PathBuf::from_str(rt.alloc(), path)?;
    for _ in 0..MOST_LINKS {
        match journal_of(rt, name.as_str())? {
            Journal::Closed => {}
            found => return Ok(found),
        }
        match next_journal(rt, &name)? {
            Some(next) => name = next,
            None => return Ok(Journal::Closed),
        }
    }
    Ok(Journal::Closed)
}

fn refuse_memory<R: Runtime>(rt: &R, path: &str) -> ExitCode {
    refuse(rt, &Report::File(path, "NoMemory"))
}

/// Refuses to replace a file of which a save was cut off, or a journal can't be read, and gives the status to end with.
pub fn refuse_unfinished<R: Runtime + AllocGlobal>(rt: &R, path: &str) -> Result<(), ExitCode> {
    match journals_of(rt, path) {
        Ok(Journal::Closed) => Ok(()),
        Ok(Journal::Open(_)) => Err(refuse(rt, &Report::File(path, "JournalOpen"))),
        Ok(Journal::Unreadable(name)) => {
            Err(refuse(rt, &Report::File(name.as_str(), "Unreadable")))
        }
        Err(_) => Err(refuse_memory(rt, path)),
    }
}

/// Tells on standard error that a file may be half written, if a save of it was cut off, or may have been. Without the
/// memory to look, it gives the status to end with.
pub fn tell_unfinished<R: Runtime + AllocGlobal>(rt: &R, path: &str) -> Result<(), ExitCode> {
    match journals_of(rt, path) {
        Ok(Journal::Closed) => Ok(()),
        Ok(Journal::Open(name)) => {
            tell_cut_off(rt, path, name.as_str());
            Ok(())
        }
        Ok(Journal::Unreadable(name)) => {
            tell_unknown(rt, path, name.as_str());
            Ok(())
        }
        Err(_) => Err(refuse_memory(rt, path)),
    }
}

fn tell_cut_off<R: Runtime>(rt: &R, path: &str, journal: &str) {
    let file = Told(path);
    let rest = Told(journal);
    let _ = eprintln!(rt;
        "note: a save of {file} was cut off, so it may be half written; {rest} has the rest"
    );
}

fn tell_unknown<R: Runtime>(rt: &R, path: &str, journal: &str) {
    let file = Told(path);
    let unread = Told(journal);
    let _ = eprintln!(rt;
        "note: {unread} can't be read, so a save of {file} may have been cut off, and it may be half written"
    );
}
