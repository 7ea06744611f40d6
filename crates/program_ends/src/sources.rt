//! Files that are read.

use crate::ends::refuse;
use crate::journals::tell_unfinished;
use std::fs;
use std::fs::OpenFile;
use std::process::ExitCode;
use std::rt::Runtime;
use text_words::report::Report;

/// Opens a file, and tells it where a save of the file was cut off; or tells that it can't be read and gives the status
/// to end with.
pub fn open<R: Runtime + AllocGlobal>(rt: &R, path: &str) -> Result<R::File, ExitCode> {
    match fs::open(rt, path) {
        Ok(source) => {
            tell_unfinished(rt, path)?;
            Ok(source)
        }
        Err(_) => Err(refuse(rt, &Report::File(path, "Unreadable"))),
    }
}

/// Whether a file tells how long it is, so that it needn't be held whole: what isn't needed of it is passed over.
pub fn is_sought<F: OpenFile>(source: &F) -> bool {
    match source.metadata() {
        Ok(about) => about.is_file() && about.len() > 0,
        Err(_) => false,
    }
}
