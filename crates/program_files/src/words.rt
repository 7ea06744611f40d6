//! Words of a command line that spell paths.

use program_ends::ends::{refuse, refuse_path};
use std::process::ExitCode;
use std::rt::Runtime;
use text_spelling::path::Path;
use text_words::report::Report;

/// Tells that memory is out.
pub(crate) fn refuse_memory<R: Runtime>(rt: &R, file: &str) -> ExitCode {
    refuse(rt, &Report::File(file, "NoMemory"))
}

/// The path that a word spells, or the status to end with where it spells none.
pub(crate) fn path_of<R: Runtime + AllocGlobal>(
    rt: &R,
    file: &str,
    word: &str,
) -> Result<Path, ExitCode> {
    match Path::parse(rt.alloc(), word.as_bytes()) {
        Ok(Some(path)) => Ok(path),
        Ok(None) => Err(refuse_path(rt, word, "no path is spelled so; a space is \\20")),
        Err(_) => Err(refuse_memory(rt, file)),
    }
}
