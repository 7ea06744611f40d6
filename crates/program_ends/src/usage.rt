//! Command lines that are refused, and those that ask for the help or the version. A line that is refused is read again
//! with its words as they are told, so that none of them acts on a terminal.

use crate::ends::{REFUSED, USAGE, refuse};
use clap::Error;
use clap::error::ErrorKind;
use std::alloc::{AllocError, Global};
use std::process::ExitCode;
use std::rt::Runtime;
use text_words::report::{Report, STANDARD};
use text_words::told::Told;

fn has_hidden(word: &str) -> bool {
    word.chars().any(char::is_control)
}

/// Whether a word of a command line holds what isn't told as it is.
pub fn have_hidden(words: &[String]) -> bool {
    words.iter().any(|word| has_hidden(word.as_str()))
}

/// The words of a command line as they are told.
///
/// Refused for want of memory alone.
pub fn told_words(alloc: Global, words: &[String]) -> Result<Vec<String>, AllocError> {
    let mut told = Vec::new(alloc);
    for word in words {
        let text = Told(word.as_str());
        told.push(format!(in alloc; "{text}")?)?;
    }
    Ok(told)
}

/// Tells what is wrong with a command line, or prints the help or the version that it asks for, and gives the status to
/// end with.
pub fn answer_usage<R: Runtime>(rt: &R, error: &Error) -> ExitCode {
    match error.print(rt) {
        Ok(()) if error.kind() == ErrorKind::OutOfMemory => ExitCode::from(REFUSED),
        Ok(()) => ExitCode::from(error.exit_code() as u8),
        Err(_) => refuse(rt, &Report::File(STANDARD, "Unwritable")),
    }
}

/// Tells that a command line is refused which isn't once its words are told.
pub fn refuse_words<R: Runtime>(rt: &R) -> ExitCode {
    let _ = eprintln!(rt; "error: a word of the command line has control characters");
    ExitCode::from(USAGE)
}
