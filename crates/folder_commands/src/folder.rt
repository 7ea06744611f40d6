//! Folders in which entries are made.

ghost use Rattle.folder_commands.specs.Plan.{Entry, file, folder};
ghost use Rattle.folder_commands.specs.Made.{Adds};
ghost use Rattle.folder_commands.specs.Streams.{bytes_in};
ghost use Rattle.std.specs.Prelude.{[], ◌≡◌, ◌∷◌, IfSome, List, None, OnErr, OnOk, Option, length};

use crate::path::FolderPath;
use crate::streams::Stream;
use read_source::source::Source;
use thiserror::Error;
use tree_values::class_id::ClassId;

/// Why an entry isn't made.
#[derive(Debug, Clone, Copy, Error)]
pub enum FolderFault {
    /// Something stands there already.
    #[error("something stands there already")]
    Exists,
    /// A folder can't be made, or a write fails.
    #[error("writing fails")]
    Unwritable,
    /// No memory was left.
    #[error("no memory is left")]
    NoMemory,
    /// A read of what is to be written fails.
    #[error("reading fails")]
    Unreadable,
}

impl FolderFault {
    ghost use Rattle.folder_commands.specs.Made.{folder_fault_name};
    ghost use Rattle.std.specs.Prelude.{◌≡◌};

    /// The fault's name, as it is printed.
    pub fn name(&self) -> &'static str
        ensures { result.now ≡ folder_fault_name self.now }
    {
        match self {
            FolderFault::Exists => "Exists",
            FolderFault::Unwritable => "Unwritable",
            FolderFault::NoMemory => "NoMemory",
            FolderFault::Unreadable => "Unreadable",
        }
    }
}

/// A folder in which entries are made. The path of an entry says nothing but what stands inside the folder.
pub trait Folder {
    // What was made there, where that is known.
    ghost made: { Self → Option (List Entry) } = { λ _. None };

    /// Makes a folder for a storage of this class id and these state bits. The one that it stands in is there.
    ///
    /// Refused: `Exists` where something stands there; `Unwritable`; `NoMemory`. What is known to be made stays as it
    /// was then.
    fn make_folder(
        &mut self,
        path: &FolderPath,
        class: &ClassId,
        state: u32,
    ) -> Result<(), FolderFault>
        ensures made { OnOk result (Adds (made self.old) (made self.new) (folder path.now class.now state ∷ [])) }
        ensures unmade { OnErr result (made self.new ≡ made self.old) };

    /// Makes a file of the bytes of a stream, which are copied from a source that has so many bytes. The folder that it
    /// stands in is there.
    ///
    /// Refused: likewise, and `Unreadable` where the source isn't read. A file that isn't whole doesn't stay.
    fn make_file<S: Source>(
        &mut self,
        path: &FolderPath,
        source: &mut S,
        len: usize,
        stream: &Stream,
    ) -> Result<(), FolderFault>
        ensures made { OnOk result (IfSome (S.bytes source.old) (λ a. length a ≡ len
            → Adds (made self.old) (made self.new) (file path.now (bytes_in a stream.now) ∷ []))) }
        ensures unmade { OnErr result (made self.new ≡ made self.old) }
        ensures kept { S.bytes source.new ≡ S.bytes source.old };
}
