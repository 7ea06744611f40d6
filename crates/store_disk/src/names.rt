//! The files of documents by their names, as a system gives them.

ghost use Rattle.store_disk.specs.Names.{CountsCalls, is_beside, is_open};
ghost use Rattle.store_disk.specs.declared.names.Beside.{Beside};
ghost use Rattle.store_disk.specs.declared.names.Standing.{Standing};
ghost use Rattle.std.specs.Prelude.{◌≡◌, false, IfOk, List, OnOk, ℕ};

use crate::disk_files::DiskFiles;
use std::io;

/// What bears the name of a document.
#[derive(Clone, Copy)]
pub enum Standing {
    /// Nothing.
    Missing,
    /// A file without bytes.
    Empty,
    /// A file with bytes, or what is no file.
    Taken,
}

/// What bears the name of a document's journal.
#[derive(Clone, Copy)]
pub enum Beside {
    /// Nothing.
    Nothing,
    /// A journal whose gate isn't open.
    Shut,
    /// One whose gate is open, so that it holds a document.
    Open,
}

impl Beside {
    /// Whether it is an open journal.
    pub(crate) fn is_open(self) -> bool
        ensures { result ≡ is_open self }
    {
        match self {
            Beside::Open => true,
            Beside::Nothing | Beside::Shut => false,
        }
    }

    /// Whether it is anything.
    pub(crate) fn is_there(self) -> bool
        ensures { result ≡ is_beside self }
    {
        match self {
            Beside::Nothing => false,
            Beside::Shut | Beside::Open => true,
        }
    }
}

/// Where documents have names, and beside each its journal. What is said of names holds where the model is followed;
/// that calls which failed are counted holds of each.
pub trait Names {
    /// The files of a document.
    type Files: DiskFiles + Drop;

    /// That names of this type do what the clauses say. Of a system's names no contract can say it.
    ghost follows_model: { Type 0 };

    /// What bears the name of a document.
    ghost standing: { Self → List ℕ → Standing };

    /// What bears the name of its journal.
    ghost beside: { Self → List ℕ → Beside };

    /// How many calls have failed.
    ghost failed: { Self → ℕ };

    /// What bears the name of a document.
    fn look(&mut self, name: &str) -> io::Result<Standing>
        ensures found { follows_model → IfOk result (λ found. found ≡ standing self.old name.now) }
        ensures same { follows_model → OnOk result (beside self.new name.now ≡ beside self.old name.now) }
        ensures count { CountsCalls (failed self.old) (failed self.new) result };

    /// What bears the name of its journal.
    fn look_beside(&mut self, name: &str) -> io::Result<Beside>
        ensures found { follows_model → IfOk result (λ found. found ≡ beside self.old name.now) }
        ensures count { CountsCalls (failed self.old) (failed self.new) result };

    /// The files of a document, held against others. What is missing is made.
    fn open(&mut self, name: &str) -> io::Result<Self::Files>
        ensures sync { IfOk result (λ files. Self.Files.sync_may_lie files ≡ false) }
        ensures count { CountsCalls (failed self.old) (failed self.new) result };
}
