//! The file that is changed, and the journal beside it.
//!
//! A file is opened as a save of a container opens it, so the two keep each other out. A journal that was made for an
//! edit is removed while it is held: whoever waits for it finds that it isn't the one of its name any more.

use crate::words::refuse_memory;
use program_ends::ends::refuse;
use std::fs::{self, File};
use std::io::ErrorKind;
use std::process::ExitCode;
use std::rt::{Files, Runtime};
use store_disk::opening::find;
use store_disk::system_names::SystemNames;
use store_edits::editing::{Edited, Ending, edit_document};
use store_edits::fault::EditFault;
use text_words::report::{Report, STANDARD};
use tree_edits::change::Change;

/// How a change is asked for.
#[derive(Clone, Copy)]
pub(crate) enum Asked {
    /// By lines, by whose number a refused one is told.
    ByLines,
    /// By the command line.
    Alone,
}

/// Makes changes of the file of a path, and tells how many bytes it has then and how many of its blocks were written,
/// or why it stays as it was. What is freed is zeroed, or stays.
pub(crate) fn change_file<R: Runtime<File = File> + AllocGlobal>(
    rt: &R,
    path: &str,
    changes: Vec<(usize, Change)>,
    is_zeroed: bool,
    asked: Asked,
) -> ExitCode {
    let Ok(journal) = format!(in rt.alloc(); "{path}.journal") else {
        return refuse_memory(rt, path);
    };
    let is_new = is_missing(rt, journal.as_str());
    match find(&mut SystemNames::new(rt), path) {
        Ok(Some(disk)) => {
            let ending = edit_document(rt.alloc(), disk, changes, is_zeroed);
            if is_new && ending.is_settled {
                // One that can't be removed is closed, and does no harm.
                let _ = fs::remove_file(rt, journal.as_str());
            }
            end(rt, path, ending, asked)
        }
        Ok(None) => refuse(rt, &Report::File(path, "Unreadable")),
        Err(fault) => refuse(rt, &Report::File(path, fault.name())),
    }
}

/// Whether nothing is there.
fn is_missing<R: Files<File = File>>(rt: &R, path: &str) -> bool {
    match fs::symlink_metadata(rt, path) {
        Ok(_) => false,
        Err(error) => error.kind() == ErrorKind::NotFound,
    }
}

/// Tells how an edit ended, and gives the status to end with.
fn end<R: Runtime, D: Drop>(rt: &R, path: &str, ending: Ending<D>, asked: Asked) -> ExitCode {
    match ending.told {
        Ok(edited) => tell(rt, edited),
        Err(fault) => refuse_edit(rt, path, &fault, asked),
    }
}

/// Tells how many bytes a file has that was changed, and how many of its blocks were written.
fn tell<R: Runtime>(rt: &R, edited: Edited) -> ExitCode {
    let Edited { bytes, blocks } = edited;
    match println!(rt; "{bytes} bytes, {blocks} blocks") {
        Ok(()) => ExitCode::SUCCESS,
        Err(_) => refuse(rt, &Report::File(STANDARD, "Unwritable")),
    }
}

/// Tells why a file isn't changed.
fn refuse_edit<R: Runtime>(rt: &R, path: &str, fault: &EditFault, asked: Asked) -> ExitCode {
    match asked {
        Asked::ByLines => refuse(rt, &fault.report(path)),
        Asked::Alone => refuse(rt, &fault.report_alone(path)),
    }
}
