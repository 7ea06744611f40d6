//! A folder of a test's own, with a document and its journal.

use std::hash::{BuildHasher, RandomState};
use std::{env, fs};

/// The names of the folder, of the document in it and of the document's journal.
#[derive(Drop)]
pub(crate) struct Folder {
    path: String,
    name: String,
    journal: String,
}

impl Folder {
    /// A new folder, none where it isn't made.
    pub(crate) fn new(rt: &HostRuntime) -> Option<Folder> {
        let alloc = rt.alloc();
        let key = RandomState::new(rt).ok()?.hash_one(&0u8);
        let temp = env::temp_dir(rt).ok()?;
        let path = format!(in alloc; "{}/olecon_{key}", temp.as_str()).ok()?;
        fs::create_dir(rt, path.as_str()).ok()?;
        let name = format!(in alloc; "{path}/a.doc").ok()?;
        let journal = format!(in alloc; "{name}.journal").ok()?;
        Some(Folder {
            path,
            name,
            journal,
        })
    }

    pub(crate) fn path(&self) -> &str {
        self.path.as_str()
    }

    pub(crate) fn name(&self) -> &str {
        self.name.as_str()
    }

    pub(crate) fn journal(&self) -> &str {
        self.journal.as_str()
    }

    /// Removes both files and the folder: whether nothing else was in it.
    pub(crate) fn is_removed(&self, rt: &HostRuntime) -> bool {
        fs::remove_file(rt, self.journal()).is_ok()
            && fs::remove_file(rt, self.name()).is_ok()
            && fs::remove_dir(rt, self.path()).is_ok()
    }
}
