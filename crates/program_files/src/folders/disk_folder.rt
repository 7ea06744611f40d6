//! Folders of a system.

ghost use Rattle.std.specs.Prelude.{◌≡◌};

use folder_commands::folder::{Folder, FolderFault};
use folder_commands::notes::{NOTES, is_plain, notes};
use folder_commands::path::FolderPath;
use folder_commands::streams::{Stream, copy_stream};
use program_ends::new_file::NewFile;
use read_source::source::Source;
use read_streams::fault::CopyFault;
use std::alloc::{AllocError, Global};
use std::fs::{self, File, OpenOptions};
use std::io::{self, ErrorKind, Write};
use std::rt::{Clock, Files};
use tree_values::class_id::ClassId;

/// A folder of a system in which entries are made. Each folder below it is made new, and each file too, so no link that
/// stands in it is followed, unless what stands there is to be replaced: then a folder that is none by a link is taken
/// as it is, and a file or a link stays until all of the new file is written beside it, which has the owner and the
/// rights of a file that it replaces.
#[derive(Drop)]
pub(crate) struct DiskFolder<'a, R: Files<File = File> + Clock + AllocGlobal> {
    rt: &'a R,
    path: &'a str,
    is_forced: bool,
}

impl<'a, R: Files<File = File> + Clock + AllocGlobal> DiskFolder<'a, R> {
    /// The folder of this path, and whether what stands there is to be replaced.
    pub(crate) fn new(rt: &'a R, path: &'a str, is_forced: bool) -> DiskFolder<'a, R> {
        DiskFolder {
            rt,
            path,
            is_forced,
        }
    }

    /// Makes a folder at a path; the folder itself may be there.
    fn create(&self, path: &str, is_top: bool) -> Result<(), FolderFault> {
        match fs::create_dir(self.rt, path) {
            Ok(()) => Ok(()),
            Err(error) => match fault_of(&error) {
                FolderFault::Exists if self.may_take(path, is_top) => Ok(()),
                fault => Err(fault),
            },
        }
    }

    /// Whether a folder that stands at a path is taken as it is. The folder itself may be one by a link.
    fn may_take(&self, path: &str, is_top: bool) -> bool {
        if is_top {
            return match fs::metadata(self.rt, path) {
                Ok(about) => about.is_dir(),
                Err(_) => false,
            };
        }
        match fs::symlink_metadata(self.rt, path) {
            Ok(about) => self.is_forced && about.is_dir(),
            Err(_) => false,
        }
    }

    /// Writes what a folder tells of its storage.
    fn tell(&self, path: &str, class: &ClassId, state: u32) -> Result<(), FolderFault> {
        let alloc = self.rt.alloc();
        let Ok(file) = format!(in alloc; "{path}/{NOTES}") else {
            return Err(FolderFault::NoMemory);
        };
        if is_plain(class, state) {
            return self.clear(file.as_str());
        }
        match notes(alloc, class, state) {
            Ok(text) => self.put_text(file.as_str(), text),
            Err(_) => Err(FolderFault::NoMemory),
        }
    }

    /// Writes a new file of a text at a path.
    fn put_text(&self, path: &str, text: Vec<u8>) -> Result<(), FolderFault> {
        // It is held, so nothing else is read for it.
        let mut nothing = b"".as_slice();
        self.put(path, &mut nothing, 0, &Stream::Held(text))
    }

    /// Writes a new file of a stream at a path.
    fn put<S: Source>(
        &self,
        path: &str,
        source: &mut S,
        len: usize,
        stream: &Stream,
    ) -> Result<(), FolderFault>
        ensures { S.bytes source.new ≡ S.bytes source.old }
    {
        match create_new(self.rt, path) {
            Ok(mut file) => {
                let done = copy_stream(self.rt.alloc(), source, len, stream, &mut file);
                self.remove_unless(path, done)
            }
            Err(error) => match fault_of(&error) {
                FolderFault::Exists if self.may_replace(path) => {
                    self.replace(path, source, len, stream)
                }
                fault => Err(fault),
            },
        }
    }

    /// Whether what stands at a path is a file or a link that is to be replaced.
    fn may_replace(&self, path: &str) -> bool {
        match fs::symlink_metadata(self.rt, path) {
            Ok(about) => self.is_forced && !about.is_dir(),
            Err(_) => false,
        }
    }

    /// Writes a new file of a stream beside a path, and puts it in the place of what stands there.
    fn replace<S: Source>(
        &self,
        path: &str,
        source: &mut S,
        len: usize,
        stream: &Stream,
    ) -> Result<(), FolderFault>
        ensures { S.bytes source.new ≡ S.bytes source.old }
    {
        let mut new = NewFile::in_place(self.rt, path);
        // It is made by its first write, and a stream of no bytes has none.
        if let Err(error) = new.write(&[]) {
            return Err(write_fault(&error));
        }
        let done = copy_stream(self.rt.alloc(), source, len, stream, &mut new);
        keep(new, done)
    }

    /// Removes a new file unless all of it was written.
    fn remove_unless(&self, path: &str, done: Result<(), CopyFault>) -> Result<(), FolderFault> {
        match done {
            Ok(()) => Ok(()),
            Err(fault) => {
                let _ = fs::remove_file(self.rt, path);
                Err(copy_fault(fault))
            }
        }
    }

    /// Sees to it that nothing stands at a path: a file or a link there is removed where it is to be replaced.
    fn clear(&self, path: &str) -> Result<(), FolderFault> {
        match fs::symlink_metadata(self.rt, path) {
            Ok(about) if self.is_forced && !about.is_dir() => self.remove(path),
            Ok(_) => Err(FolderFault::Exists),
            Err(error) if error.kind() == ErrorKind::NotFound => Ok(()),
            Err(error) => Err(fault_of(&error)),
        }
    }

    fn remove(&self, path: &str) -> Result<(), FolderFault> {
        match fs::remove_file(self.rt, path) {
            Ok(()) => Ok(()),
            Err(error) => Err(fault_of(&error)),
        }
    }
}

/// Why nothing new is made at a path.
fn fault_of(error: &io::Error) -> FolderFault {
    match error.kind() {
        ErrorKind::AlreadyExists => FolderFault::Exists,
        ErrorKind::OutOfMemory => FolderFault::NoMemory,
        _ => FolderFault::Unwritable,
    }
}

/// Why a file that is made beside another isn't put in its place.
fn write_fault(error: &io::Error) -> FolderFault {
    match error.kind() {
        ErrorKind::OutOfMemory => FolderFault::NoMemory,
        _ => FolderFault::Unwritable,
    }
}

/// Why a stream isn't copied into a file that is made.
fn copy_fault(fault: CopyFault) -> FolderFault {
    match fault {
        CopyFault::Unreadable => FolderFault::Unreadable,
        CopyFault::Unwritable => FolderFault::Unwritable,
        CopyFault::NoMemory => FolderFault::NoMemory,
    }
}

/// Puts a new file in the place of what stands at its path, if all of it was written.
fn keep<R: Files<File = File> + Clock + AllocGlobal>(
    new: NewFile<'_, R>,
    done: Result<(), CopyFault>,
) -> Result<(), FolderFault> {
    match done {
        Ok(()) => match new.put() {
            Ok(()) => Ok(()),
            Err(error) => Err(write_fault(&error)),
        },
        Err(fault) => {
            new.discard();
            Err(copy_fault(fault))
        }
    }
}

fn create_new<R: Files>(rt: &R, path: &str) -> io::Result<R::File> {
    OpenOptions::new()
        .write(true)
        .create_new(true)
        .open(rt, path)
}

/// The path of what has this path in a folder.
pub(crate) fn path_in(alloc: Global, folder: &str, path: &[u8]) -> Result<String, AllocError> {
    match str::from_utf8(path) {
        Ok(path) if !path.is_empty() => format!(in alloc; "{folder}/{path}"),
        _ => String::from_str(alloc, folder),
    }
}

impl<'a, R: Files<File = File> + Clock + AllocGlobal> Folder for DiskFolder<'a, R> {
    fn make_folder(
        &mut self,
        path: &FolderPath,
        class: &ClassId,
        state: u32,
    ) -> Result<(), FolderFault> {
        let spelled = path.as_bytes();
        let Ok(path) = path_in(self.rt.alloc(), self.path, spelled) else {
            return Err(FolderFault::NoMemory);
        };
        self.create(path.as_str(), spelled.is_empty())?;
        self.tell(path.as_str(), class, state)
    }

    fn make_file<S: Source>(
        &mut self,
        path: &FolderPath,
        source: &mut S,
        len: usize,
        stream: &Stream,
    ) -> Result<(), FolderFault> {
        let Ok(path) = path_in(self.rt.alloc(), self.path, path.as_bytes()) else {
            return Err(FolderFault::NoMemory);
        };
        self.put(path.as_str(), source, len, stream)
    }
}
