//! How a run of the program ends.

use crate::journals::refuse_unfinished;
use crate::new_file::NewFile;
use std::fs::File;
use std::io;
use std::io::ErrorKind;
use std::process::ExitCode;
use std::rt::Runtime;
use text_words::report::{Report, STANDARD};
use text_words::told::Told;

/// The status where the command line is refused.
pub(crate) const USAGE: u8 = 2;

/// The status where a file or a line is refused, or a run stops.
pub const REFUSED: u8 = 3;

/// Tells a fault on standard error, whose own faults nobody could be told.
pub fn refuse<R: Runtime>(rt: &R, report: &Report<'_>) -> ExitCode {
    let _ = eprintln!(rt; "{report}");
    ExitCode::from(REFUSED)
}

/// The name of the fault where a system's call on a file that is written failed.
pub fn write_fault(error: &io::Error) -> &'static str {
    match error.kind() {
        ErrorKind::OutOfMemory => "NoMemory",
        _ => "Unwritable",
    }
}

/// Tells that a file isn't written for this reason.
fn refuse_write<R: Runtime>(rt: &R, path: &str, error: &io::Error) -> ExitCode {
    refuse(rt, &Report::File(path, write_fault(error)))
}

/// Drops a new file that wasn't written whole. Where memory was refused as it was to be opened, tells so and gives the
/// status to end with: its writer was told of a write that failed, and of nothing else.
pub fn give_up<R: Runtime<File = File> + AllocGlobal>(
    rt: &R,
    new: NewFile<'_, R>,
    path: &str,
) -> Option<ExitCode> {
    let lacked = new.lacked_memory();
    new.discard();
    if lacked {
        Some(refuse(rt, &Report::File(path, "NoMemory")))
    } else {
        None
    }
}

/// Keeps a new file of so many bytes, and tells their number. A save of the file in whose place it is to be may have
/// been cut off since the command began; then that file stays.
pub fn keep<R: Runtime<File = File> + AllocGlobal>(
    rt: &R,
    new: NewFile<'_, R>,
    path: &str,
    count: usize,
) -> ExitCode {
    match settle(rt, &new, path) {
        Ok(()) => put(rt, new, path, count),
        Err(code) => {
            new.discard();
            code
        }
    }
}

/// Waits until the device has a new file, and looks again whether the one in whose place it is to be may be replaced.
fn settle<R: Runtime<File = File> + AllocGlobal>(
    rt: &R,
    new: &NewFile<'_, R>,
    path: &str,
) -> Result<(), ExitCode> {
    if let Err(error) = new.sync() {
        return Err(refuse_write(rt, path, &error));
    }
    refuse_unfinished(rt, path)?;
    match new.target() {
        Some(target) => refuse_unfinished(rt, target),
        None => Ok(()),
    }
}

/// Puts a new file in its place, and tells how many bytes it has.
fn put<R: Runtime<File = File> + AllocGlobal>(
    rt: &R,
    new: NewFile<'_, R>,
    path: &str,
    count: usize,
) -> ExitCode {
    match new.keep() {
        Ok(()) => tell_bytes(rt, count),
        Err(error) => refuse_write(rt, path, &error),
    }
}

/// Tells how many bytes a new file has.
fn tell_bytes<R: Runtime>(rt: &R, count: usize) -> ExitCode {
    match println!(rt; "{count} bytes") {
        Ok(()) => ExitCode::SUCCESS,
        Err(_) => refuse(rt, &Report::File(STANDARD, "Unwritable")),
    }
}

/// Tells on standard error why a word is no path.
pub fn refuse_path<R: Runtime>(rt: &R, word: &str, why: &str) -> ExitCode {
    let told = Told(word);
    let _ = eprintln!(rt; "error: invalid value '{told}' for '<PATH>': {why}");
    ExitCode::from(USAGE)
}

/// Tells on standard error that a command line names no command.
pub fn refuse_command<R: Runtime>(rt: &R) -> ExitCode {
    let _ = eprintln!(rt; "error: the command line names no command");
    ExitCode::from(USAGE)
}

/// Tells on standard error why the program could not begin.
pub fn refuse_start<R: Runtime>(rt: &R, error: &io::Error) -> ExitCode {
    if error.kind() == ErrorKind::InvalidData {
        let _ = eprintln!(rt; "error: an argument is not UTF-8 text");
        return ExitCode::from(USAGE);
    }
    let _ = eprintln!(rt; "error: {error}");
    ExitCode::from(REFUSED)
}
