//! Descriptions of trees.

ghost use Rattle.tree_descriptions.specs.Building.{Builds, IsBuilt};
ghost use Rattle.tree_descriptions.specs.Description.{carried_out};
ghost use Rattle.tree_descriptions.specs.Refusal.{refusal};
ghost use Rattle.tree_descriptions.specs.Texts.{Describes, IsTold, MayRefuseText};
ghost use Rattle.std.specs.Prelude.{◌≤◌, IfErr, IfOk, IfSome};
ghost use Rattle.tree_storage.specs.Kept.{Kept};
ghost use Rattle.text_io.specs.Input.{most};
ghost use Rattle.text_io.specs.Reading.{left_asking};

use crate::building::Building;
pub use crate::building::Described;
use crate::command::{Command, is_command};
use crate::fault::{LineFault, TextFault};
use crate::run::Run;
use std::alloc::Global;
use std::io::{BufRead, BufReader, Read};
use text_io::input::InputFault;
use text_io::reading::{Passed, next_line};

/// How many bytes are read at once.
const AT_ONCE: usize = 65_536;

/// The tree that a reader's description describes, or its outline where its streams have more bytes than a file. The
/// description is read line by line, and never held whole.
///
/// Refused: a description that isn't read, that has more than 134,217,728 bytes or for which no memory is left; else
/// its first line that is outside the grammar (`Bad`), or else the first that can't be carried out, with its number
/// from 1; `NoMemory` at the line at which no memory was left.
pub fn describe<R: Read>(alloc: Global, reader: &mut R) -> Result<Described, TextFault>
    ensures made { IfOk result (λ d. IfSome (R.remaining reader.old) (λ text. Describes text d)) }
    ensures refused { IfErr result (λ fault. IfSome (R.remaining reader.old) (λ text. MayRefuseText text fault)) }
{
    match BufReader::with_capacity(alloc, AT_ONCE, reader) {
        Ok(mut buffered) => describe_lines(alloc, &mut buffered),
        Err(_) => Err(TextFault::Input(InputFault::NoMemory)),
    }
}

/// The same of the lines that a reader with a buffer gives.
fn describe_lines<R: BufRead>(alloc: Global, reader: &mut R) -> Result<Described, TextFault>
    ensures made { IfOk result (λ d. IfSome (R.remaining reader.old) (λ text. Describes text d)) }
    ensures refused { IfErr result (λ fault. IfSome (R.remaining reader.old) (λ text. MayRefuseText text fault)) }
{
    let mut line = Vec::new(alloc);
    let mut passed = Passed::nothing();
    // Nearly all descriptions begin with streams of the root in name order: they are put into the tree at once.
    let mut run = Run::new(alloc);
    let mut next = next_line(reader, &mut line, &mut passed)?;
    while next.is_some() && run.take_line(alloc, &line) {
        next = next_line(reader, &mut line, &mut passed)?;
    }
    let Ok(mut building) = Building::from_run(alloc, run) else {
        // No line of them is at fault, so none is told.
        return Err(TextFault::Input(InputFault::NoMemory));
    };
    while let Some(number) = next {
        match Command::parse(alloc, &line) {
            Ok(Some(command)) => match carry_out(alloc, &mut building, command) {
                Ok(()) => {}
                Err(fault) => {
                    // Nothing can come of the tree.
                    drop(building);
                    return Err(refusal(alloc, reader, &mut line, passed, number, fault));
                }
            },
            Ok(None) => return Err(behind_all(reader, &mut line, passed, number, LineFault::Bad)),
            Err(_) => {
                return Err(behind_all(reader, &mut line, passed, number, LineFault::NoMemory));
            }
        }
        next = next_line(reader, &mut line, &mut passed)?;
    }
    Ok(building.finish())
}

/// What a description is refused for where the command of a line can't be carried out, given the reader behind it: a
/// line outside the grammar comes first, and before it that the text isn't read to its end.
fn refusal<R: BufRead>(
    alloc: Global,
    reader: &mut R,
    line: &mut Vec<u8>,
    mut passed: Passed,
    number: usize,
    fault: LineFault,
) -> TextFault
    requires lines { passed.lines ≤ passed.bytes }
    requires bytes { passed.bytes ≤ most }
    ensures { IfSome (R.remaining reader.old)
        (λ text. IsTold passed text (refusal (left_asking passed text) (number, fault)) result) }
{
    loop {
        match next_line(reader, line, &mut passed) {
            Ok(Some(place)) => {
                if !is_command(alloc, line) {
                    return behind_all(reader, line, passed, place, LineFault::Bad);
                }
            }
            Ok(None) => return TextFault::Line(number, fault),
            Err(unread) => return TextFault::Input(unread),
        }
    }
}

/// This fault of a line, if the text is read to its end.
fn behind_all<R: BufRead>(
    reader: &mut R,
    line: &mut Vec<u8>,
    mut passed: Passed,
    number: usize,
    fault: LineFault,
) -> TextFault
    requires lines { passed.lines ≤ passed.bytes }
    requires bytes { passed.bytes ≤ most }
    ensures { IfSome (R.remaining reader.old) (λ text. IsTold passed text (number, fault) result) }
{
    loop {
        match next_line(reader, line, &mut passed) {
            Ok(Some(_)) => {}
            Ok(None) => return TextFault::Line(number, fault),
            Err(unread) => return TextFault::Input(unread),
        }
    }
}

/// Carries out a command.
fn carry_out(alloc: Global, building: &mut Building, command: Command) -> Result<(), LineFault>
    ensures { (k : Kept) → IsBuilt building.old k → Builds (carried_out command k) result building.new }
{
    match command {
        Command::Storage(path) => match path.names() {
            Ok(names) => building.make_storage(names),
            Err(fault) => Err(LineFault::Name(fault)),
        },
        Command::Stream(path, bytes) => match path.names() {
            Ok(names) => building.put_bytes(alloc, names, bytes),
            Err(fault) => Err(LineFault::Name(fault)),
        },
        Command::Fill(path, count, byte) => match path.names() {
            Ok(names) => building.put_filled(alloc, names, count, byte),
            Err(fault) => Err(LineFault::Name(fault)),
        },
    }
}
