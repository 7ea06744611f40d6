//! Writing a compound file anew.

ghost use Rattle.write_cleaned.specs.Cleaning.{Cleans, MayRefuseClean, early};
ghost use Rattle.write_cleaned.specs.Faults.{of_move_fault, of_source_fault};
ghost use Rattle.std.specs.Prelude.{◌≡◌, IfErr, IfOk, IfSome, true};

use crate::fault::CleanFault;
use crate::moving::{MoveFault, move_file};
use crate::moving_fault::SourceFault;
use crate::reading::{Opened, open};
use read_source::source::Source;
use read_streams::fault::CopyFault;
use std::alloc::Global;
use std::io::Write;
use text_io::input::InputFault;

/// A fault of a file that is opened.
fn of_source(fault: SourceFault) -> CleanFault
    ensures { result ≡ of_source_fault fault }
{
    match fault {
        SourceFault::Input(fault) => CleanFault::Input(fault),
        SourceFault::Read(fault) => CleanFault::Read(fault),
    }
}

/// A fault of a file that is written anew.
fn of_moving(fault: MoveFault) -> CleanFault
    ensures { result ≡ of_move_fault fault }
{
    match fault {
        MoveFault::Write(fault) => CleanFault::Write(fault),
        MoveFault::Copy(CopyFault::Unreadable) => CleanFault::Cut(InputFault::Unreadable),
        MoveFault::Copy(CopyFault::NoMemory) => CleanFault::Cut(InputFault::NoMemory),
        MoveFault::Copy(CopyFault::Unwritable) => CleanFault::Unwritable,
    }
}

/// Writes a compound file of the tree that a compound file holds, and gives its length, with what was opened of the
/// file: who is about to end needn't give its memory back piece by piece. Nothing else of the file is looked at: what
/// stands in free sectors, behind a stream's end or in entries without a link is left behind. No stream is held: each
/// is read where it lies as it is written, in pieces of at most 65,536 bytes.
///
/// Refused: a file that isn't read, has more than 134,217,728 bytes or denotes no tree; a tree that doesn't fit into a
/// file. Nothing is written then. Once writing has begun, `Cut` where a read fails or memory is wanting, and
/// `Unwritable` where a write fails.
pub fn clean_file<S: Source, W: Write>(
    alloc: Global,
    source: &mut S,
    writer: &mut W,
) -> Result<(usize, Opened), CleanFault>
    ensures cleaned { IfOk result
        (λ made. IfSome (S.bytes source.old) (λ file. Cleans file (W.contents writer.old) (W.contents writer.new)
        made.0)) }
    ensures refused { IfErr result (λ fault. IfSome (S.bytes source.old) (λ file. MayRefuseClean file fault)) }
    ensures unwritten { IfErr result (λ fault. early fault ≡ true → writer.new ≡ writer.old) }
{
    let opened = match open(alloc, source) {
        Ok(opened) => opened,
        Err(fault) => return Err(of_source(fault)),
    };
    match move_file(alloc, source, &opened, writer) {
        Ok(count) => Ok((count, opened)),
        Err(fault) => Err(of_moving(fault)),
    }
}
