//! Making a compound file over readers and writers.

ghost use Rattle.write_described.specs.Faults.{of_send_fault};
ghost use Rattle.write_described.specs.Run.{Makes, MayRefuseMake};
ghost use Rattle.std.specs.Prelude.{◌≡◌, ◌≢◌, Ok, IfErr, IfOk, IfSome};
ghost use Rattle.tree_storage.specs.Kept.{kept};
ghost use Rattle.tree_descriptions.specs.Description.{described};

use crate::fault::MakeFault;
use cfb_file::fault::WriteFault;
use std::alloc::Global;
use std::io::{Read, Write};
use tree_descriptions::description::{Described, describe};
use tree_descriptions::fault::TextFault;
use tree_storage::tree::Tree;
use write_files::sending::{SendFault, send_file};

/// A fault of a described tree that is written.
fn of_sending(fault: SendFault) -> MakeFault
    ensures { result ≡ of_send_fault fault }
{
    match fault {
        SendFault::Write(fault) => MakeFault::Write(fault),
        SendFault::Unwritable => MakeFault::Unwritable,
    }
}

/// Writes the compound file of the tree that a description describes, and gives its length.
///
/// Refused: an input that isn't read or has more than 134,217,728 bytes; the first line of the description that is
/// outside the grammar, or else the first that can't be carried out; a tree that doesn't fit into a file. Nothing is
/// written then. `Unwritable` where a write fails. Neither the description nor the file is ever held whole: lines are
/// read one after another, and a long stream is written from where the tree has it.
pub fn make_file<R: Read, W: Write>(
    alloc: Global,
    reader: &mut R,
    writer: &mut W,
) -> Result<usize, MakeFault>
    ensures made { IfOk result (λ count. IfSome (R.remaining reader.old)
        (λ text. Makes text (W.contents writer.old) (W.contents writer.new) count)) }
    ensures refused { IfErr result (λ fault. IfSome (R.remaining reader.old) (λ text. MayRefuseMake text fault)) }
    ensures unwritten { IfErr result (λ fault. fault ≢ MakeFault.Unwritable → writer.new ≡ writer.old) }
{
    match make_with_tree(alloc, reader, writer) {
        Ok((count, _)) => Ok(count),
        Err(fault) => Err(fault),
    }
}

/// Does what `make_file` does, and gives the tree besides: who is about to end needn't give its memory back piece by
/// piece.
///
/// Refused: as `make_file`.
pub fn make_with_tree<R: Read, W: Write>(
    alloc: Global,
    reader: &mut R,
    writer: &mut W,
) -> Result<(usize, Tree), MakeFault>
    ensures made { IfOk result (λ made. IfSome (R.remaining reader.old)
        (λ text. Makes text (W.contents writer.old) (W.contents writer.new) made.0)) }
    ensures refused { IfErr result (λ fault. IfSome (R.remaining reader.old) (λ text. MayRefuseMake text fault)) }
    ensures unwritten { IfErr result (λ fault. fault ≢ MakeFault.Unwritable → writer.new ≡ writer.old) }
{
    let tree = described_tree(alloc, reader)?;
    match send_file(alloc, tree.root(), writer) {
        Ok(count) => Ok((count, tree)),
        Err(fault) => Err(of_sending(fault)),
    }
}

/// The tree that a reader's description describes.
///
/// Refused: as `make_file`, and also where its streams have more bytes than a file.
#[tactic(auto, using(tree_descriptions::proofs::Room::too_large))]
fn described_tree<R: Read>(alloc: Global, reader: &mut R) -> Result<Tree, MakeFault>
    ensures made { IfOk result (λ tree. IfSome (R.remaining reader.old) (λ text. described text ≡ Ok (kept tree))) }
    ensures refused { IfErr result (λ fault. IfSome (R.remaining reader.old) (λ text. MayRefuseMake text fault)) }
{
    match describe(alloc, reader) {
        Ok(Described::Whole(tree)) => Ok(tree),
        Ok(Described::Outline(_)) => Err(MakeFault::Write(WriteFault::TooBig)),
        Err(TextFault::Input(fault)) => Err(MakeFault::Input(fault)),
        Err(TextFault::Line(number, fault)) => Err(MakeFault::Line(number, fault)),
    }
}
