//! How many entries were made so far, told where somebody watches.

use folder_commands::folder::{Folder, FolderFault};
use folder_commands::path::FolderPath;
use folder_commands::streams::Stream;
use read_source::source::Source;
use std::rt::Runtime;
use tree_values::class_id::ClassId;

/// After how many entries more it is told again.
const STEP: usize = 1000;

/// A folder of which is told how many entries were made in it, each `STEP` of them, in one line of standard error.
/// Where that is no terminal, nobody watches, and nothing is told.
#[derive(Drop)]
pub(crate) struct Watched<'a, R, F> {
    rt: &'a R,
    folder: F,
    is_watched: bool,
    made: usize,
}

impl<'a, R: Runtime, F: Folder> Watched<'a, R, F> {
    /// The folder, and whether somebody watches.
    pub(crate) fn new(rt: &'a R, folder: F, is_watched: bool) -> Watched<'a, R, F> {
        Watched {
            rt,
            folder,
            is_watched,
            made: 0,
        }
    }

    /// Counts one more, and tells how many were made, over what was told before.
    fn count(&mut self) {
        self.made = self.made.saturating_add(1);
        if self.is_watched && self.made % STEP == 0 {
            let _ = eprint!(self.rt; "\r{} made", self.made);
        }
    }

    /// Takes away what was told.
    pub(crate) fn end(&self) {
        if self.is_watched && self.made >= STEP {
            let _ = eprint!(self.rt; "\r                          \r");
        }
    }
}

impl<'a, R: Runtime, F: Folder> Folder for Watched<'a, R, F> {
    fn make_folder(
        &mut self,
        path: &FolderPath,
        class: &ClassId,
        state: u32,
    ) -> Result<(), FolderFault> {
        self.folder.make_folder(path, class, state)?;
        self.count();
        Ok(())
    }

    fn make_file<S: Source>(
        &mut self,
        path: &FolderPath,
        source: &mut S,
        len: usize,
        stream: &Stream,
    ) -> Result<(), FolderFault> {
        self.folder.make_file(path, source, len, stream)?;
        self.count();
        Ok(())
    }
}
