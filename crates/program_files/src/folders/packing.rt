//! Making files of folders.

use crate::folders::disk_folder::path_in;
use crate::folders::finding::{Refusal, Whole, find_all};
use cfb_names::name::Name;
use folder_commands::packing::{PackFault, pack_found};
use folder_commands::path::FolderPath;
use program_ends::ends::{give_up, keep, refuse};
use program_ends::journals::refuse_unfinished;
use program_ends::new_file::NewFile;
use std::alloc::{AllocError, Global};
use std::fs::File;
use std::process::ExitCode;
use std::rt::Runtime;
use text_words::report::Report;

/// Makes a file of a folder, unless a save of the file in whose place it is to be was cut off.
pub(crate) fn pack<R: Runtime<File = File> + AllocGlobal>(
    rt: &R,
    folder: &str,
    path: &str,
) -> ExitCode {
    if let Err(code) = refuse_unfinished(rt, path) {
        return code;
    }
    match find_all(rt, folder) {
        Ok(whole) => pack_whole(rt, folder, path, whole),
        Err(Refusal { path, fault }) => refuse(rt, &Report::File(path.as_str(), fault)),
    }
}

/// Makes a file of all that stands in a folder.
fn pack_whole<R: Runtime<File = File> + AllocGlobal>(
    rt: &R,
    folder: &str,
    path: &str,
    whole: Whole,
) -> ExitCode {
    let Whole {
        class,
        state,
        found,
    } = whole;
    let mut new = NewFile::new(rt, path);
    match pack_found(rt.alloc(), class, state, found, &mut new) {
        Ok(count) => keep(rt, new, path, count),
        Err(fault) => match give_up(rt, new, path) {
            Some(code) => code,
            None => refuse_pack(rt, folder, path, &fault),
        },
    }
}

/// Tells why no file is made of a folder.
fn refuse_pack<R: Runtime + AllocGlobal>(
    rt: &R,
    folder: &str,
    path: &str,
    fault: &PackFault,
) -> ExitCode {
    match fault {
        PackFault::Tree(names, fault) => match place_of(rt.alloc(), folder, names) {
            Ok(place) => refuse(rt, &Report::File(place.as_str(), fault.name())),
            Err(_) => refuse(rt, &Report::File(folder, fault.name())),
        },
        PackFault::Write(fault) => refuse(rt, &Report::File(path, fault.name())),
        PackFault::Unwritable => refuse(rt, &Report::File(path, "Unwritable")),
    }
}

/// The path of what has these names in a folder.
fn place_of(alloc: Global, folder: &str, names: &[Name]) -> Result<String, AllocError> {
    let mut path = FolderPath::top(alloc);
    for name in names {
        path = path.join(alloc, name)?;
    }
    path_in(alloc, folder, path.as_bytes())
}
