//! Writing the file of a tree to where it goes, without a copy of its streams in memory.

ghost use Rattle.write_files.specs.Sending.{MayRefuseSend, WritesFile};
ghost use Rattle.std.specs.Prelude.{◌≡◌, ◌≢◌, IfErr, IfOk};
ghost use Rattle.tree_storage.specs.View.{view};

use crate::front::front_of;
use crate::needs::count;
use crate::sent_streams::send_all;
use cfb_file::fault::WriteFault;
use std::alloc::Global;
use std::io::Write;
use thiserror::Error;
use tree_storage::storage::Storage;

/// Why the file of a tree isn't written.
#[derive(Debug, Clone, Copy, Error)]
pub enum SendFault {
    /// The tree has no file, or memory is wanting.
    #[error("{0}")]
    Write(WriteFault),
    /// A write fails.
    #[error("writing fails")]
    Unwritable,
}

/// Writes the bytes of the compound file of a tree with this root, those of `write_file`, and gives how many there are.
/// Of the file only its tables, and of each entry of its directory where it leads, are held in memory, beside at most
/// 131,072 bytes that wait: each stream, short or long, is written from where the tree has it. The file denotes the
/// tree where that is whole.
///
/// Refused: as `write_file`; nothing is written then. `Unwritable` where a write fails.
pub fn send_file<W: Write>(
    alloc: Global,
    root: &Storage,
    writer: &mut W,
) -> Result<usize, SendFault>
    ensures written { IfOk result (WritesFile (view root.now) (W.contents writer.old) (W.contents writer.new)) }
    ensures refused { IfErr result (MayRefuseSend (view root.now)) }
    ensures unwritten { IfErr result (λ e. e ≢ SendFault.Unwritable → writer.new ≡ writer.old) }
{
    let counts = match count(root) {
        Ok(counts) => counts,
        Err(fault) => return Err(SendFault::Write(fault)),
    };
    let front = match front_of(alloc, root, counts) {
        Ok(front) => front,
        Err(_) => return Err(SendFault::Write(WriteFault::NoMemory)),
    };
    match send_all(writer, front, root, counts) {
        Ok(()) => Ok(counts.file_len()),
        Err(_) => Err(SendFault::Unwritable),
    }
}
