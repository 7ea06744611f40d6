//! What stands in a folder of a system.

use cfb_names::name::{Name, named};
use folder_commands::names::read_component;
use folder_commands::notes::NOTES;
use folder_commands::packed_notes::read_notes;
use folder_commands::packing::Found;
use folder_commands::plan::Content;
use std::alloc::{AllocError, Global};
use std::fs::{self, DirEntry, Metadata, OpenFile};
use std::io::{self, ErrorKind};
use std::os::unix::fs::MetadataExt;
use std::rt::Runtime;
use text_io::input::read_all;
use tree_values::bytes::Bytes;
use tree_values::class_id::ClassId;

/// How many folders are looked into.
const MOST_FOLDERS: u32 = 1_000_000;

/// How many bytes the files may have together: no compound file that is written has more.
const MOST_BYTES: u64 = 134_217_728;

/// What stands in a folder, and what it tells of the root.
#[derive(Drop)]
pub(crate) struct Whole {
    pub class: ClassId,
    pub state: u32,
    pub found: Vec<Found>,
}

/// Why a folder isn't read: the path at which it was stopped, and the fault's name.
#[derive(Drop)]
pub(crate) struct Refusal {
    pub path: String,
    pub fault: &'static str,
}

/// A folder that is still to be looked into: its path, and the names of its storage.
#[derive(Drop)]
struct Pending {
    path: String,
    names: Vec<Name>,
}

/// What is looked for.
#[derive(Drop)]
struct Search {
    found: Vec<Found>,
    pending: Vec<Pending>,
    bytes: u64,
}

const NO_MEMORY: &str = "NoMemory";

const UNREADABLE: &str = "Unreadable";

const NOT_A_FILE: &str = "NotAFile";

/// All that stands in a folder, each storage before what it holds.
pub(crate) fn find_all<R: Runtime + AllocGlobal>(rt: &R, folder: &str) -> Result<Whole, Refusal> {
    let (class, state) = told_of(rt, folder)?;
    Ok(Whole {
        class,
        state,
        found: find_below(rt, folder)?,
    })
}

/// All that stands in a folder, but for what it tells of itself.
fn find_below<R: Runtime + AllocGlobal>(rt: &R, folder: &str) -> Result<Vec<Found>, Refusal> {
    let alloc = rt.alloc();
    let mut search = Search {
        found: Vec::new(alloc),
        pending: Vec::new(alloc),
        bytes: 0,
    };
    search_all(rt, folder, &mut search)?;
    Ok(search.found)
}

/// Looks into a folder, and into each that is found.
fn search_all<R: Runtime + AllocGlobal>(
    rt: &R,
    folder: &str,
    search: &mut Search,
) -> Result<(), Refusal> {
    let alloc = rt.alloc();
    if begin(alloc, search, folder).is_err() {
        return Err(refused_at(alloc, folder, NO_MEMORY));
    }
    for _ in 0..MOST_FOLDERS {
        let Some(next) = search.pending.pop() else {
            return Ok(());
        };
        look_into(rt, search, &next)?;
    }
    Err(refused_at(alloc, folder, "TooBig"))
}

/// The refusal at a path; without memory for that, one of no path.
fn refused_at(alloc: Global, path: &str, fault: &'static str) -> Refusal {
    match String::from_str(alloc, path) {
        Ok(path) => Refusal { path, fault },
        Err(_) => Refusal {
            path: String::new(alloc),
            fault: NO_MEMORY,
        },
    }
}

/// The refusal where a system's call on what stands at a path failed.
fn unread_at(alloc: Global, path: &str, error: &io::Error) -> Refusal {
    refused_at(alloc, path, read_fault(error))
}

/// The name of the fault where a system's call on what is read failed.
fn read_fault(error: &io::Error) -> &'static str {
    match error.kind() {
        ErrorKind::OutOfMemory => NO_MEMORY,
        _ => UNREADABLE,
    }
}

fn begin(alloc: Global, search: &mut Search, folder: &str) -> Result<(), AllocError> {
    search.pending.push(Pending {
        path: String::from_str(alloc, folder)?,
        names: Vec::new(alloc),
    })?;
    Ok(())
}

/// Takes all that stands in one folder.
fn look_into<R: Runtime + AllocGlobal>(
    rt: &R,
    search: &mut Search,
    folder: &Pending,
) -> Result<(), Refusal> {
    let place = folder.path.as_str();
    let entries = match fs::read_dir(rt, place) {
        Ok(entries) => entries,
        Err(error) => return Err(unread_at(rt.alloc(), place, &error)),
    };
    for entry in entries {
        match entry {
            Ok(entry) => take(rt, search, &folder.names, &entry)?,
            Err(error) => return Err(unread_at(rt.alloc(), place, &error)),
        }
    }
    Ok(())
}

/// Takes what stands under a name of a folder, but for the file that tells of the folder's storage.
fn take<R: Runtime + AllocGlobal>(
    rt: &R,
    search: &mut Search,
    within: &[Name],
    entry: &DirEntry<R, Global>,
) -> Result<(), Refusal> {
    if entry.file_name() == NOTES {
        return Ok(());
    }
    let alloc = rt.alloc();
    let place = entry.path();
    let path = match path_of(alloc, within, entry.file_name()) {
        Ok(path) => path,
        Err(fault) => return Err(refused_at(alloc, place.as_str(), fault)),
    };
    match fs::symlink_metadata(rt, place) {
        Ok(about) if about.is_dir() => take_folder(rt, search, path, place.as_str()),
        Ok(about) => match take_file(rt, search, path, place.as_str(), &about) {
            Ok(()) => Ok(()),
            Err(fault) => Err(refused_at(alloc, place.as_str(), fault)),
        },
        Err(error) => Err(unread_at(alloc, place.as_str(), &error)),
    }
}

/// The names of what stands under a name of a folder.
fn path_of(alloc: Global, within: &[Name], text: &str) -> Result<Vec<Name>, &'static str> {
    let name = name_of(alloc, text)?;
    match behind(alloc, within, name) {
        Ok(path) => Ok(path),
        Err(_) => Err(NO_MEMORY),
    }
}

fn name_of(alloc: Global, text: &str) -> Result<Name, &'static str> {
    let mut buffer = Vec::new(alloc);
    match read_component(&mut buffer, text.as_bytes()) {
        Ok(true) => match named(&buffer) {
            Ok(name) => Ok(name),
            Err(fault) => Err(fault.name()),
        },
        Ok(false) => Err("Bad"),
        Err(_) => Err(NO_MEMORY),
    }
}

fn behind(alloc: Global, within: &[Name], name: Name) -> Result<Vec<Name>, AllocError> {
    let mut path = Vec::new(alloc);
    for above in within {
        path.push(above.copy())?;
    }
    path.push(name)?;
    Ok(path)
}

/// Takes a folder, which is to be looked into then.
fn take_folder<R: Runtime + AllocGlobal>(
    rt: &R,
    search: &mut Search,
    path: Vec<Name>,
    place: &str,
) -> Result<(), Refusal> {
    let (class, state) = told_of(rt, place)?;
    let is_added = add_pending(rt.alloc(), search, &path, place).is_ok()
        && add_found(search, path, Content::Folder(class, state)).is_ok();
    if is_added {
        Ok(())
    } else {
        Err(refused_at(rt.alloc(), place, NO_MEMORY))
    }
}

/// Adds a folder that is still to be looked into.
fn add_pending(
    alloc: Global,
    search: &mut Search,
    path: &[Name],
    place: &str,
) -> Result<(), AllocError> {
    let mut names = Vec::new(alloc);
    for name in path {
        names.push(name.copy())?;
    }
    search.pending.push(Pending {
        path: String::from_str(alloc, place)?,
        names,
    })?;
    Ok(())
}

fn add_found(search: &mut Search, path: Vec<Name>, content: Content) -> Result<(), &'static str> {
    match search.found.push(Found { path, content }) {
        Ok(_) => Ok(()),
        Err(_) => Err(NO_MEMORY),
    }
}

/// Takes a file of which this is known.
fn take_file<R: Runtime + AllocGlobal>(
    rt: &R,
    search: &mut Search,
    path: Vec<Name>,
    place: &str,
    about: &Metadata,
) -> Result<(), &'static str> {
    let content = content_of(rt, &mut search.bytes, place, about)?;
    add_found(search, path, content)
}

/// What a file holds, whose bytes are counted together with those of the files before it.
fn content_of<R: Runtime + AllocGlobal>(
    rt: &R,
    count: &mut u64,
    place: &str,
    about: &Metadata,
) -> Result<Content, &'static str> {
    let bytes = bytes_of(rt, place, about)?;
    *count = count.saturating_add(bytes.len() as u64);
    if *count > MOST_BYTES {
        return Err("TooBig");
    }
    match Bytes::from_vec(rt.alloc(), bytes) {
        Ok(bytes) => Ok(Content::File(bytes)),
        Err(_) => Err(NO_MEMORY),
    }
}

/// The bytes of the regular file at a path, of which this is known. What took its place meanwhile, as a link to another
/// may, isn't read.
fn bytes_of<R: Runtime + AllocGlobal>(
    rt: &R,
    place: &str,
    about: &Metadata,
) -> Result<Vec<u8>, &'static str> {
    if !about.is_file() {
        return Err(NOT_A_FILE);
    }
    let mut file = match fs::open(rt, place) {
        Ok(file) => file,
        Err(error) => return Err(read_fault(&error)),
    };
    if !is_same(&file, about) {
        return Err(NOT_A_FILE);
    }
    match read_all(rt.alloc(), &mut file) {
        Ok(bytes) => Ok(bytes),
        Err(fault) => Err(fault.name()),
    }
}

/// Whether an open file is the one of which this is known.
fn is_same<F: OpenFile>(file: &F, about: &Metadata) -> bool {
    match file.metadata() {
        Ok(open) => open.dev() == about.dev() && open.ino() == about.ino(),
        Err(_) => false,
    }
}

/// The class id and state bits that a folder tells of its storage: zeros where it has no file that does.
fn told_of<R: Runtime + AllocGlobal>(rt: &R, folder: &str) -> Result<(ClassId, u32), Refusal> {
    let alloc = rt.alloc();
    let Ok(place) = format!(in alloc; "{folder}/{NOTES}") else {
        return Err(refused_at(alloc, folder, NO_MEMORY));
    };
    match told_at(rt, place.as_str()) {
        Ok(told) => Ok(told),
        Err(fault) => Err(refused_at(alloc, place.as_str(), fault)),
    }
}

/// What a file tells of a storage: zeros where nothing stands at its path.
fn told_at<R: Runtime + AllocGlobal>(rt: &R, place: &str) -> Result<(ClassId, u32), &'static str> {
    match fs::symlink_metadata(rt, place) {
        Ok(about) => read_told(rt, place, &about),
        Err(error) if is_absent(&error) => Ok((ClassId::from_bytes([0; 16]), 0)),
        Err(error) => Err(read_fault(&error)),
    }
}

fn read_told<R: Runtime + AllocGlobal>(
    rt: &R,
    place: &str,
    about: &Metadata,
) -> Result<(ClassId, u32), &'static str> {
    match read_notes(&bytes_of(rt, place, about)?) {
        Some(told) => Ok(told),
        None => Err("Bad"),
    }
}

/// Whether nothing is found since nothing stands there, or the folder itself is none, which is told when it is looked
/// into.
fn is_absent(error: &io::Error) -> bool {
    matches!(error.kind(), ErrorKind::NotFound | ErrorKind::NotADirectory)
}
