//! A file written anew of what was opened, without a copy of its streams in memory.

ghost use Rattle.cfb_layout.specs.Directory.{balanced, directory_of_tree, parts_of};
ghost use Rattle.cfb_layout.specs.Image.{image};
ghost use Rattle.cfb_file.specs.Need.{directory_sectors};
ghost use Rattle.write_cleaned.specs.Moves.{MayRefuseMove};
ghost use Rattle.write_cleaned.specs.Opened.{IsOpenedOf};
ghost use Rattle.write_cleaned.specs.Sizes.{IsSized, blank_of};
ghost use Rattle.read_outlines.specs.View.{shown};
ghost use Rattle.write_parts.specs.Counted.{AreEnough};
ghost use Rattle.write_parts.specs.Front.{IsFront};
ghost use Rattle.write_files.specs.Sending.{WritesFile};
ghost use Rattle.std.specs.Io.KnownBytes.{Appends};
ghost use Rattle.std.specs.Prelude.{◌*◌, ◌≡◌, IfErr, IfOk, IfSome, List, OnOk, Some, length, ℕ};
ghost use Rattle.cfb_file.specs.declared.fault.WriteFault.{WriteFault};
ghost use Rattle.cfb_entries.specs.Tree.{Tree};
ghost use Rattle.write_cleaned.specs.Windows.{IsWindow};
ghost use Rattle.read_streams.specs.Tables.{read_by};

use crate::listed::Listed;
use crate::reading::Opened;
use crate::sending::{send_long_streams, send_mini_stream};
use crate::window::Window;
use cfb_file::fault::WriteFault;
use read_outlines::outline::Outline;
use read_source::source::Source;
use read_streams::fault::CopyFault;
use read_streams::tables::Tables;
use std::alloc::Global;
use std::io::Write;
use thiserror::Error;
use write_files::front::front_of;
use write_files::needs::count;
use write_files::sent_streams::send_front;
use write_parts::counts::Counts;
use write_parts::front::Front;
use write_parts::pieces::finish;

/// Why a file isn't written anew.
#[derive(Debug, Clone, Copy, Error)]
pub enum MoveFault {
    /// The tree has no file, or memory is wanting before anything is written.
    #[error("{0}")]
    Write(WriteFault),
    /// A stream isn't copied, or a write fails.
    #[error("{0}")]
    Copy(CopyFault),
}

/// Writes the file of an outline with these counts, of which this is the front, and all through to the writer's end.
fn move_all<S: Source, W: Write>(
    source: &mut S,
    tables: &Tables,
    outline: &Outline,
    front: Front,
    counts: Counts,
    window: &mut Window,
    writer: &mut W,
) -> Result<(), CopyFault>
    requires whole { (m : ℕ) × (length tables.now.mini_fat.items ≡ 4 * m) }
    requires counts { AreEnough counts (blank_of outline.now) }
    requires front { IsFront front counts.fat (blank_of outline.now) }
    ensures sent { OnOk result ((a : List ℕ) → S.bytes source.old ≡ Some a → length a ≡ tables.now.len
        → IsWindow a tables.now window.old → IsSized (read_by a tables.now) outline.now
        → Appends (W.contents writer.old) (W.contents writer.new)
        (image counts.fat (parts_of balanced counts.fat (shown (read_by a tables.now) outline.now)))) }
    ensures long { OnOk result (length (directory_of_tree balanced counts.fat (blank_of outline.now))
        ≡ 512 * directory_sectors (blank_of outline.now)) }
    ensures kept { S.bytes source.new ≡ S.bytes source.old }
{
    let mut waiting = match send_front(writer, front, Listed { outline }, counts) {
        Ok(waiting) => waiting,
        Err(_) => return Err(CopyFault::Unwritable),
    };
    send_mini_stream(
        writer,
        &mut waiting,
        source,
        tables,
        window,
        outline,
        counts.minis,
    )?;
    send_long_streams(writer, &mut waiting, source, tables, outline, counts.longs)?;
    match finish(writer, &waiting) {
        Ok(()) => Ok(()),
        Err(_) => Err(CopyFault::Unwritable),
    }
}

/// Writes a compound file of the tree that an opened one holds, and gives its length. Held in memory are the file's
/// outline and its tables, as they were opened, and at most a few pieces of 65,536 bytes: each stream is read where it
/// lies as it is written.
///
/// Refused: `Write` where the tree has no file, and for want of memory, and nothing is written then; `Copy` where a
/// read fails, where a write does, and for want of memory, once writing has begun.
pub fn move_file<S: Source, W: Write>(
    alloc: Global,
    source: &mut S,
    opened: &Opened,
    writer: &mut W,
) -> Result<usize, MoveFault>
    requires whole { (m : ℕ) × (length opened.now.tables.mini_fat.items ≡ 4 * m) }
    ensures written { IfOk result (λ count. IfSome (S.bytes source.old) (λ a. (t : Tree) → IsOpenedOf a t opened.now
        → WritesFile t (W.contents writer.old) (W.contents writer.new) count)) }
    ensures refused { IfErr result (λ fault. MayRefuseMove (blank_of opened.now.outline) fault) }
    ensures unwritten { IfErr result (λ fault. (e : WriteFault) → fault ≡ MoveFault.Write e → writer.new ≡ writer.old) }
    ensures kept { S.bytes source.new ≡ S.bytes source.old }
{
    let root = Listed {
        outline: &opened.outline,
    };
    let counts = match count(root) {
        Ok(counts) => counts,
        Err(fault) => return Err(MoveFault::Write(fault)),
    };
    let front = match front_of(alloc, root, counts) {
        Ok(front) => front,
        Err(_) => return Err(MoveFault::Write(WriteFault::NoMemory)),
    };
    let mut window = match Window::new(alloc) {
        Ok(window) => window,
        Err(_) => return Err(MoveFault::Write(WriteFault::NoMemory)),
    };
    match move_all(
        source,
        &opened.tables,
        &opened.outline,
        front,
        counts,
        &mut window,
        writer,
    ) {
        Ok(()) => Ok(counts.file_len()),
        Err(fault) => Err(MoveFault::Copy(fault)),
    }
}
