//! The commands over the files of a system.

use crate::words::path_of;
use program_ends::ends::{REFUSED, give_up, keep, refuse, refuse_path};
use program_ends::journals::refuse_unfinished;
use program_ends::making::count_made;
use program_ends::new_file::NewFile;
use program_sources::opening::open_source;
use program_sources::source::FileSource;
use std::fs::File;
use std::io;
use std::process::ExitCode;
use std::rt::Runtime;
use tell_checks::telling::Form as CheckForm;
use tell_files::checking::check_file;
use tell_files::fault::GetFault;
use tell_files::getting::get_stream;
use tell_files::many::{Checker, check_all};
use tell_files::mapping::map_file;
use tell_forms::asked_listings::Listing;
use tell_lists::fault::ListFault;
use tell_lists::listing::list_as;
use text_spelling::path::Path;
use write_cleaned::cleaning::clean_file;

/// Tells why nothing more is told of a file, if so, and gives the status to end with.
fn end<R: Runtime>(rt: &R, path: &str, told: Result<(), ListFault>) -> ExitCode {
    match told {
        Ok(()) => ExitCode::SUCCESS,
        Err(fault) => refuse(rt, &fault.report(path)),
    }
}

/// Lists a file on standard output.
pub fn list<R: Runtime + AllocGlobal>(rt: &R, path: &str, listing: Listing) -> ExitCode {
    match open_source(rt, path) {
        Ok(mut source) => end(
            rt,
            path,
            list_as(rt.alloc(), listing, &mut source, &mut io::writer(rt)),
        ),
        Err(code) => code,
    }
}

/// Tells on standard output what is wrong with files, and where: of one alone in a line or a value, of more in one
/// each, with its name.
pub fn check<R: Runtime + AllocGlobal>(rt: &R, paths: &[&str], is_json: bool) -> ExitCode {
    if let [path] = paths {
        return check_one(rt, path, is_json);
    }
    if check_all(&mut SystemChecker { rt, is_json }, paths) {
        ExitCode::SUCCESS
    } else {
        ExitCode::from(REFUSED)
    }
}

/// Tells what is wrong with the one file that is asked for.
fn check_one<R: Runtime + AllocGlobal>(rt: &R, path: &str, is_json: bool) -> ExitCode {
    let form = if is_json {
        CheckForm::Json
    } else {
        CheckForm::Line
    };
    match open_source(rt, path) {
        Ok(mut source) => end(
            rt,
            path,
            check_file(rt.alloc(), &mut source, form, &mut io::writer(rt)),
        ),
        Err(code) => code,
    }
}

/// Files of a system, which are checked by their paths.
#[derive(Drop)]
struct SystemChecker<'a, R: Runtime + AllocGlobal> {
    rt: &'a R,
    is_json: bool,
}

impl<'a, R: Runtime + AllocGlobal> Checker for SystemChecker<'a, R> {
    fn check(&mut self, name: &str) -> bool {
        let form = if self.is_json {
            CheckForm::JsonOf(name)
        } else {
            CheckForm::LineOf(name)
        };
        match open_source(self.rt, name) {
            Ok(mut source) => is_sound(
                self.rt,
                name,
                check_file(self.rt.alloc(), &mut source, form, &mut io::writer(self.rt)),
            ),
            Err(_) => false,
        }
    }
}

/// Whether a file is sound, of which is told else why it isn't.
fn is_sound<R: Runtime>(rt: &R, path: &str, told: Result<(), ListFault>) -> bool {
    match told {
        Ok(()) => true,
        Err(fault) => {
            let _ = refuse(rt, &fault.report(path));
            false
        }
    }
}

/// Writes the map of a file to standard output.
pub fn map<R: Runtime + AllocGlobal>(rt: &R, path: &str) -> ExitCode {
    match open_source(rt, path) {
        Ok(mut source) => end(
            rt,
            path,
            map_file(rt.alloc(), &mut source, &mut io::writer(rt)),
        ),
        Err(code) => code,
    }
}

/// Writes the stream at a path of a file to standard output.
pub fn get<R: Runtime + AllocGlobal>(rt: &R, path: &str, word: &str) -> ExitCode {
    match path_of(rt, path, word) {
        Ok(spelled) => get_spelled(rt, path, word, &spelled),
        Err(code) => code,
    }
}

/// Writes the stream at a path that a word spells.
fn get_spelled<R: Runtime + AllocGlobal>(
    rt: &R,
    path: &str,
    word: &str,
    spelled: &Path,
) -> ExitCode {
    let names = match spelled.names() {
        Ok(names) => names,
        Err(fault) => return refuse_path(rt, word, fault.name()),
    };
    match open_source(rt, path) {
        Ok(mut source) => end_get(
            rt,
            path,
            get_stream(rt.alloc(), &mut source, names, &mut io::writer(rt)),
        ),
        Err(code) => code,
    }
}

/// Tells why a stream isn't written, if so, and gives the status to end with.
fn end_get<R: Runtime>(rt: &R, path: &str, got: Result<(), GetFault>) -> ExitCode {
    match got {
        Ok(()) => ExitCode::SUCCESS,
        Err(fault) => refuse(rt, &fault.report(path)),
    }
}

/// Writes the tree of a file to another, or to the same, unless a save of the one that is replaced was cut off.
pub fn clean<R: Runtime<File = File> + AllocGlobal>(rt: &R, path: &str, out: &str) -> ExitCode {
    if let Err(code) = refuse_unfinished(rt, out) {
        return code;
    }
    match open_source(rt, path) {
        Ok(mut source) => clean_into(rt, path, &mut source, out),
        Err(code) => code,
    }
}

/// Writes the tree of an open file to another, which is kept if all of it is written.
fn clean_into<R: Runtime<File = File> + AllocGlobal>(
    rt: &R,
    path: &str,
    source: &mut FileSource<File>,
    out: &str,
) -> ExitCode {
    let mut new = NewFile::new(rt, out);
    match count_made(clean_file(rt.alloc(), source, &mut new)) {
        Ok(count) => keep(rt, new, out, count),
        Err(fault) => match give_up(rt, new, out) {
            Some(code) => code,
            None => refuse(rt, &fault.report(path, out)),
        },
    }
}
