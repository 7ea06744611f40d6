//! Making folders of files.

use crate::folders::disk_folder::{DiskFolder, path_in};
use crate::folders::progress::Watched;
use crate::words::{path_of, refuse_memory};
use folder_commands::chosen::TreePath;
use folder_commands::extracting::extract_file;
use folder_commands::fault::{ExtractFault, Stop};
use program_ends::ends::{refuse, refuse_path};
use program_sources::opening::open_source;
use std::fs::File;
use std::process::ExitCode;
use std::rt::Runtime;
use text_io::input::InputFault;
use text_words::report::{Report, STANDARD};

/// Makes a folder of what stands in a file at the paths that words spell, and below these; without a word, of all.
/// Where standard error is watched, as a terminal is, how many entries there are so far is told there, if there are
/// many.
pub(crate) fn extract<R: Runtime<File = File> + AllocGlobal>(
    rt: &R,
    path: &str,
    folder: &str,
    words: &[&str],
    is_forced: bool,
    is_watched: bool,
) -> ExitCode {
    let paths = match paths_of(rt, path, words) {
        Ok(paths) => paths,
        Err(code) => return code,
    };
    let mut source = match open_source(rt, path) {
        Ok(source) => source,
        Err(code) => return code,
    };
    let mut made = Watched::new(rt, DiskFolder::new(rt, folder, is_forced), is_watched);
    let done = extract_file(rt.alloc(), &mut source, &paths, &mut made);
    made.end();
    match done {
        Ok(count) => tell(rt, count, ExitCode::SUCCESS),
        Err(stop) => stopped(rt, path, folder, words, &stop),
    }
}

/// The paths that words spell, or the status to end with where one spells none.
fn paths_of<R: Runtime + AllocGlobal>(
    rt: &R,
    file: &str,
    words: &[&str],
) -> Result<Vec<TreePath>, ExitCode> {
    let mut paths = Vec::new(rt.alloc());
    for word in words {
        let path = tree_path(rt, file, word)?;
        if paths.push(path).is_err() {
            return Err(refuse_memory(rt, file));
        }
    }
    Ok(paths)
}

/// The path that a word spells, or the status to end with where a directory doesn't take it.
fn tree_path<R: Runtime + AllocGlobal>(
    rt: &R,
    file: &str,
    word: &str,
) -> Result<TreePath, ExitCode> {
    let path = path_of(rt, file, word)?;
    match path.names() {
        Ok(names) => match TreePath::new(rt.alloc(), names) {
            Ok(path) => Ok(path),
            Err(_) => Err(refuse_memory(rt, file)),
        },
        Err(fault) => Err(refuse_path(rt, word, fault.name())),
    }
}

/// Prints how many folders and files were made, and gives the status to end with.
fn tell<R: Runtime>(rt: &R, count: usize, code: ExitCode) -> ExitCode {
    match println!(rt; "{count} made") {
        Ok(()) => code,
        Err(_) => refuse(rt, &Report::File(STANDARD, "Unwritable")),
    }
}

/// Tells what was made of a file before it was stopped, and why it was.
fn stopped<R: Runtime + AllocGlobal>(
    rt: &R,
    path: &str,
    folder: &str,
    words: &[&str],
    stop: &Stop,
) -> ExitCode {
    match &stop.fault {
        ExtractFault::Input(fault) => refuse(rt, &Report::File(path, fault.name())),
        ExtractFault::Read(fault) => refuse(rt, &Report::File(path, fault.name())),
        ExtractFault::Missing(number, fault) => refuse_missing(
            rt,
            path,
            words,
            *number,
            fault.name(),
        ),
        ExtractFault::NoMemory => refuse_memory(rt, path),
        ExtractFault::Entry(at, fault) => tell(
            rt,
            stop.made,
            refuse_in(rt, folder, at.as_bytes(), fault.name()),
        ),
        ExtractFault::Cut => tell(
            rt,
            stop.made,
            refuse(rt, &Report::File(path, InputFault::Unreadable.name())),
        ),
    }
}

/// Tells why nothing is made of the path that the word of this number spells.
fn refuse_missing<R: Runtime>(
    rt: &R,
    path: &str,
    words: &[&str],
    number: usize,
    fault: &'static str,
) -> ExitCode {
    match words.get(number) {
        Some(word) => refuse(rt, &Report::File(word, fault)),
        None => refuse(rt, &Report::File(path, fault)),
    }
}

/// Tells why what has this path in a folder isn't made; without memory for its path, that of the folder.
fn refuse_in<R: Runtime + AllocGlobal>(
    rt: &R,
    folder: &str,
    at: &[u8],
    fault: &'static str,
) -> ExitCode {
    match path_in(rt.alloc(), folder, at) {
        Ok(place) => refuse(rt, &Report::File(place.as_str(), fault)),
        Err(_) => refuse(rt, &Report::File(folder, fault)),
    }
}
