//! The files that lines name.

ghost use Rattle.tree_edits.specs.Given.{AreGiven, IsGiven, MayRefuseFiles, NamesFile};
ghost use Rattle.std.specs.Prelude.{◌≡◌, IfErr, IfOk, List, ℕ};

use crate::change::{Change, Line};
use std::alloc::Global;
use text_io::input::InputFault;
use tree_values::bytes::Bytes;

/// Where files stand that lines name.
pub trait Shelf {
    /// What the file of a name may give.
    ghost gives: { Self → List ℕ → List ℕ → Type 0 };

    /// The bytes of the file of a name.
    fn read(&self, alloc: Global, name: &[u8]) -> Result<Bytes, InputFault>
        ensures { IfOk result (λ bytes. gives self.now name.now bytes) };
}

/// Why files aren't read.
#[derive(Drop)]
pub enum FilesFault {
    /// The one of this name isn't.
    Unread(Bytes, InputFault),
    /// No memory was left.
    NoMemory,
}

/// The changes that lines ask for, with the bytes of the files that they name.
///
/// Refused: the first of these files that isn't read; `NoMemory`.
pub fn take_files<S: Shelf>(
    alloc: Global,
    shelf: &S,
    lines: Vec<(usize, Line)>,
) -> Result<Vec<(usize, Change)>, FilesFault>
    ensures given { IfOk result (λ changes. AreGiven (S.gives shelf.now) lines.items changes.items) }
    ensures refused { IfErr result (MayRefuseFiles lines.items) }
{
    let mut changes = Vec::new(alloc);
    for numbered in lines {
        let (number, line) = numbered;
        match take_file(alloc, shelf, line) {
            Ok(change) => match changes.push((number, change)) {
                Ok(()) => {}
                Err(_) => return Err(FilesFault::NoMemory),
            },
            Err((name, fault)) => return Err(FilesFault::Unread(name, fault)),
        }
    }
    Ok(changes)
}

/// The change that a line asks for.
///
/// Refused: the file that it names isn't read.
fn take_file<S: Shelf>(alloc: Global, shelf: &S, line: Line) -> Result<Change, (Bytes, InputFault)>
    ensures given { IfOk result (λ change. IsGiven (S.gives shelf.now) line change) }
    ensures named { IfErr result (λ refused. NamesFile line refused.0) }
{
    match line {
        Line::Plain(change) => Ok(change),
        Line::File(path, name) => match shelf.read(alloc, name.as_slice()) {
            Ok(bytes) => Ok(Change::Put(path, bytes)),
            Err(fault) => Err((name, fault)),
        },
    }
}
