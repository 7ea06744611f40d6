//! Why a folder isn't made.

use crate::folder::FolderFault;
use crate::path::FolderPath;
use read_files::fault::ReadFault;
use text_io::input::InputFault;
use tree_storage::fault::TreeFault;

/// Why a file isn't made into a folder.
#[derive(Drop)]
pub enum ExtractFault {
    /// The file isn't read.
    Input(InputFault),
    /// The bytes denote no tree.
    Read(ReadFault),
    /// Nothing stands at the path of this number.
    Missing(usize, TreeFault),
    /// No memory was left before anything was made.
    NoMemory,
    /// What has this path in the folder isn't made.
    Entry(FolderPath, FolderFault),
    /// The file isn't read further, once making has begun.
    Cut,
}

/// Where it was stopped.
#[derive(Drop)]
pub struct Stop {
    /// How many folders and files were made before, the folder itself among them.
    pub made: usize,
    /// Why it was stopped.
    pub fault: ExtractFault,
}
