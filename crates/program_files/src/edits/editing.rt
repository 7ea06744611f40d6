//! What a command that changes a file in place reads and asks for.

ghost use Rattle.std.specs.Prelude.{◌<◌, ◌^◌, length};

use crate::edits::documents::{Asked, change_file};
use crate::edits::shelves::SystemShelf;
use crate::words::{path_of, refuse_memory};
use program_ends::ends::{refuse, refuse_path};
use std::fs::File;
use std::process::ExitCode;
use std::rt::Runtime;
use text_io::input::{InputFault, read_all};
use text_io::lines::parse_lines;
use text_spelling::path::Path;
use text_words::report::{Report, STANDARD};
use text_words::told::Told;
use tree_edits::change::{Change, Line};
use tree_edits::files::{FilesFault, take_files};
use tree_edits::lines::EditLines;
use tree_values::bytes::Bytes;

/// The status where the command line is refused.
const USAGE: u8 = 2;

/// Tells why standard input isn't read.
fn refuse_input<R: Runtime>(rt: &R, path: &str, fault: InputFault) -> ExitCode {
    match fault {
        InputFault::NoMemory => refuse_memory(rt, path),
        fault => refuse(rt, &Report::File(STANDARD, fault.name())),
    }
}

/// Makes the changes of a file that the lines of standard input ask for. All of these are read before the file is
/// opened.
pub(crate) fn edit<R: Runtime<File = File> + AllocGlobal>(
    rt: &R,
    path: &str,
    is_zeroed: bool,
) -> ExitCode {
    match read_all(rt.alloc(), &mut rt.reader()) {
        Ok(text) => edit_by_text(rt, path, &text, is_zeroed),
        Err(fault) => refuse_input(rt, path, fault),
    }
}

/// Makes the changes that the lines of a text ask for.
fn edit_by_text<R: Runtime<File = File> + AllocGlobal>(
    rt: &R,
    path: &str,
    text: &[u8],
    is_zeroed: bool,
) -> ExitCode
    requires { length text.now < 2 ^ 32 }
{
    match parse_lines::<EditLines>(rt.alloc(), text) {
        Ok(lines) => edit_by_lines(rt, path, lines, is_zeroed),
        Err((number, fault)) => refuse(rt, &Report::Line(number, fault.name())),
    }
}

/// Makes the changes that lines ask for.
fn edit_by_lines<R: Runtime<File = File> + AllocGlobal>(
    rt: &R,
    path: &str,
    lines: Vec<(usize, Line)>,
    is_zeroed: bool,
) -> ExitCode {
    match take_files(rt.alloc(), &SystemShelf { rt }, lines) {
        Ok(changes) => change_file(rt, path, changes, is_zeroed, Asked::ByLines),
        Err(FilesFault::Unread(name, fault)) => refuse_named(rt, path, name.as_slice(), fault),
        Err(FilesFault::NoMemory) => refuse_memory(rt, path),
    }
}

/// Tells why the file that a line names isn't read.
fn refuse_named<R: Runtime>(rt: &R, path: &str, name: &[u8], fault: InputFault) -> ExitCode {
    match std::str::from_utf8(name) {
        Ok(name) => refuse(rt, &Report::File(name, fault.name())),
        Err(_) => refuse(rt, &Report::File(path, fault.name())),
    }
}

/// Makes one change of a file.
fn change_alone<R: Runtime<File = File> + AllocGlobal>(
    rt: &R,
    path: &str,
    change: Change,
    is_zeroed: bool,
) -> ExitCode {
    let mut changes = Vec::new(rt.alloc());
    match changes.push((1, change)) {
        Ok(()) => change_file(rt, path, changes, is_zeroed, Asked::Alone),
        Err(_) => refuse_memory(rt, path),
    }
}

/// The path that a word spells, or the status to end with where a directory doesn't take it.
fn taken_path<R: Runtime + AllocGlobal>(rt: &R, file: &str, word: &str) -> Result<Path, ExitCode> {
    let path = path_of(rt, file, word)?;
    match fault_of(&path) {
        Some(fault) => Err(refuse_path(rt, word, fault)),
        None => Ok(path),
    }
}

/// Why a directory doesn't take a path, if so.
fn fault_of(path: &Path) -> Option<&'static str> {
    match path.names() {
        Ok(_) => None,
        Err(fault) => Some(fault.name()),
    }
}

/// Puts the bytes of standard input into the stream at a path that a word spells.
pub(crate) fn put<R: Runtime<File = File> + AllocGlobal>(
    rt: &R,
    path: &str,
    word: &str,
    is_zeroed: bool,
) -> ExitCode {
    match taken_path(rt, path, word) {
        Ok(at) => put_at(rt, path, at, is_zeroed),
        Err(code) => code,
    }
}

/// Puts the bytes of standard input into the stream at a path.
fn put_at<R: Runtime<File = File> + AllocGlobal>(
    rt: &R,
    path: &str,
    at: Path,
    is_zeroed: bool,
) -> ExitCode {
    match read_all(rt.alloc(), &mut rt.reader()) {
        Ok(bytes) => match Bytes::from_vec(rt.alloc(), bytes) {
            Ok(bytes) => change_alone(rt, path, Change::Put(at, bytes), is_zeroed),
            Err(_) => refuse_memory(rt, path),
        },
        Err(fault) => refuse_input(rt, path, fault),
    }
}

/// Removes what stands at a path that a word spells.
pub(crate) fn remove<R: Runtime<File = File> + AllocGlobal>(
    rt: &R,
    path: &str,
    word: &str,
    is_zeroed: bool,
) -> ExitCode {
    match taken_path(rt, path, word) {
        Ok(at) => change_alone(rt, path, Change::Remove(at), is_zeroed),
        Err(code) => code,
    }
}

/// Gives what stands at a path another name, each as a word spells it.
pub(crate) fn rename<R: Runtime<File = File> + AllocGlobal>(
    rt: &R,
    path: &str,
    word: &str,
    name: &str,
    is_zeroed: bool,
) -> ExitCode {
    match taken_path(rt, path, word) {
        Ok(at) => rename_at(rt, path, at, name, is_zeroed),
        Err(code) => code,
    }
}

/// Gives what stands at a path the name that a word spells.
fn rename_at<R: Runtime<File = File> + AllocGlobal>(
    rt: &R,
    path: &str,
    at: Path,
    name: &str,
    is_zeroed: bool,
) -> ExitCode {
    match name_of(rt, path, name) {
        Ok(to) => change_alone(rt, path, Change::Rename(at, to), is_zeroed),
        Err(code) => code,
    }
}

/// The path of one name that a word spells, or the status to end with where it spells none.
fn name_of<R: Runtime + AllocGlobal>(rt: &R, file: &str, word: &str) -> Result<Path, ExitCode> {
    match Path::parse(rt.alloc(), word.as_bytes()) {
        Ok(Some(path)) => match name_fault(&path) {
            Some(fault) => Err(refuse_name(rt, word, fault)),
            None => Ok(path),
        },
        Ok(None) => Err(refuse_name(rt, word, "no name is spelled so; a space is \\20")),
        Err(_) => Err(refuse_memory(rt, file)),
    }
}

/// Why a path isn't one name, if so: a slash stands in no name.
fn name_fault(path: &Path) -> Option<&'static str> {
    match path.names() {
        Ok([_]) => None,
        Ok(_) => Some("NameForbidden"),
        Err(fault) => Some(fault.name()),
    }
}

/// Tells on standard error why a word is no name.
fn refuse_name<R: Runtime>(rt: &R, word: &str, why: &str) -> ExitCode {
    let told = Told(word);
    let _ = eprintln!(rt; "error: invalid value '{told}' for '<NAME>': {why}");
    ExitCode::from(USAGE)
}
