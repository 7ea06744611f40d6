//! A folder in memory.

use cfb_names::name::{Name, named};
use folder_commands::folder::{Folder, FolderFault};
use folder_commands::names::read_component;
use folder_commands::packing::Found;
use folder_commands::path::FolderPath;
use folder_commands::plan::Content;
use folder_commands::streams::{Stream, copy_stream};
use read_source::source::Source;
use std::alloc::{AllocError, Global};
use text_words::words::Pieces;
use tree_values::bytes::Bytes;
use tree_values::class_id::ClassId;

/// A folder in memory, which takes so many entries and then is full.
#[derive(Drop)]
pub struct Memory {
    pub alloc: Global,
    pub room: usize,
    pub class: ClassId,
    pub state: u32,
    pub found: Vec<Found>,
}

impl Memory {
    pub fn new(alloc: Global, room: usize) -> Memory {
        Memory {
            alloc,
            room,
            class: ClassId::from_bytes([0; 16]),
            state: 0,
            found: Vec::new(alloc),
        }
    }

    fn take_folder(
        &mut self,
        path: &FolderPath,
        class: ClassId,
        state: u32,
    ) -> Result<(), AllocError> {
        let names = names_of(self.alloc, path.as_bytes())?;
        if names.is_empty() {
            self.class = class;
            self.state = state;
            return Ok(());
        }
        self.put(names, Content::Folder(class, state))
    }

    fn take_file(&mut self, path: &FolderPath, bytes: Vec<u8>) -> Result<(), AllocError> {
        let names = names_of(self.alloc, path.as_bytes())?;
        let bytes = Bytes::from_vec(self.alloc, bytes)?;
        self.put(names, Content::File(bytes))
    }

    fn put(&mut self, path: Vec<Name>, content: Content) -> Result<(), AllocError> {
        self.found.push(Found { path, content })?;
        Ok(())
    }
}

/// Whether something was taken; then there is less room.
fn counted(room: &mut usize, taken: Result<(), AllocError>) -> Result<(), FolderFault> {
    match taken {
        Ok(()) => {
            *room = room.saturating_sub(1);
            Ok(())
        }
        Err(_) => Err(FolderFault::NoMemory),
    }
}

impl Folder for Memory {
    fn make_folder(
        &mut self,
        path: &FolderPath,
        class: &ClassId,
        state: u32,
    ) -> Result<(), FolderFault> {
        if self.room == 0 {
            return Err(FolderFault::Unwritable);
        }
        let taken = self.take_folder(path, *class, state);
        counted(&mut self.room, taken)
    }

    fn make_file<S: Source>(
        &mut self,
        path: &FolderPath,
        source: &mut S,
        len: usize,
        stream: &Stream,
    ) -> Result<(), FolderFault> {
        if self.room == 0 {
            return Err(FolderFault::Unwritable);
        }
        let mut bytes = Vec::new(self.alloc);
        if copy_stream(self.alloc, source, len, stream, &mut bytes).is_err() {
            return Err(FolderFault::Unreadable);
        }
        let taken = self.take_file(path, bytes);
        counted(&mut self.room, taken)
    }
}

/// The names that a path of a folder holds.
fn names_of(alloc: Global, path: &[u8]) -> Result<Vec<Name>, AllocError> {
    let mut names = Vec::new(alloc);
    let mut buffer = Vec::new(alloc);
    if path.is_empty() {
        return Ok(names);
    }
    let mut parts = Pieces::new(path, b'/');
    for _ in 0..=path.len() {
        let Some(part) = parts.next_piece() else {
            break;
        };
        let is_read = read_component(&mut buffer, part)?;
        if let Ok(name) = named(&buffer) {
            if is_read {
                names.push(name)?;
            }
        }
    }
    Ok(names)
}
