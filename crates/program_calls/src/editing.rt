//! Editing a file in memory.

ghost use Rattle.tree_edits.specs.Given.{AreGiven};
ghost use Rattle.store_edits.specs.Edits.{IsEdit};
ghost use Rattle.program_calls.specs.Answers.{Answers, AnswersAt};
ghost use Rattle.program_calls.specs.Edits.{IsEdited, IsEditedBy, IsRefusedBy, IsRefusedEdit, IsRefusedUpdate};
ghost use Rattle.program_calls.specs.Edits.{MayRefuseLines, edit_line, no_file};
ghost use Rattle.std.specs.Prelude.{◌≡◌, IfErr, IfOk, ℕ};

use crate::limit::is_too_big;
use crate::numbers::{NO_MEMORY, TOO_BIG, UNREADABLE, edit_number, syntax_number};
use crate::placing::put;
use std::alloc::Global;
use store_edits::fault::EditFault;
use store_edits::files::updated;
use text_io::lines::parse_lines;
use tree_edits::change::{Change, Line};
use tree_edits::lines::EditLines;

/// Why lines ask for no changes of a file in memory.
#[derive(Clone, Copy)]
enum LinesFault {
    /// The line of this number names a file, and in memory none has a name.
    Named(usize),
    /// No memory was left.
    NoMemory,
}

/// The file of the tree that the lines of a text make of another file's, in its sectors, as `edit` of the program reads
/// them. What is freed keeps its bytes.
///
/// Refused: as `edit_line`.
pub fn edit(alloc: Global, file: &[u8], text: &[u8], out: &mut [u8], needed: &mut usize) -> u32
    ensures { Answers (IsEdited file.now text.now) (λ number. (line : ℕ)
        × IsRefusedEdit file.now text.now line number) result out.old out.new needed.new }
{
    let mut line = 0;
    edit_line(alloc, file, text, out, needed, &mut line)
}

/// The same, and tells in `line` the number of the line that is refused, from 1; 0 where none is.
///
/// Refused: `TOO_BIG` where the text has more than 134,217,728 bytes; the first line outside the grammar; `UNREADABLE`
/// where a line names a file; `NO_MEMORY`; as `updated`.
pub fn edit_line(
    alloc: Global,
    file: &[u8],
    text: &[u8],
    out: &mut [u8],
    needed: &mut usize,
    line: &mut usize,
) -> u32
    ensures { AnswersAt (IsEdited file.now text.now) (IsRefusedEdit file.now text.now) result out.old out.new
        needed.new line.new }
{
    *needed = 0;
    *line = 0;
    if is_too_big(text) {
        return TOO_BIG;
    }
    match parse_lines::<EditLines>(alloc, text) {
        Ok(lines) => edit_by(alloc, file, lines, out, needed, line),
        Err((number, fault)) => {
            *line = number;
            syntax_number(fault)
        }
    }
}

/// The file of the tree that lines make of another file's.
fn edit_by(
    alloc: Global,
    file: &[u8],
    lines: Vec<(usize, Line)>,
    out: &mut [u8],
    needed: &mut usize,
    line: &mut usize,
) -> u32
    requires needed { needed.old ≡ 0 }
    requires line { line.old ≡ 0 }
    ensures { AnswersAt (IsEditedBy file.now lines.items) (IsRefusedBy file.now lines.items) result out.old out.new
        needed.new line.new }
{
    match changes_of(alloc, lines) {
        Ok(changes) => update(alloc, file, changes, out, needed, line),
        Err(LinesFault::Named(named)) => {
            *line = named;
            UNREADABLE
        }
        Err(LinesFault::NoMemory) => NO_MEMORY,
    }
}

/// The changes that lines ask for.
///
/// Refused: the first line that names a file; `NoMemory`.
fn changes_of(alloc: Global, lines: Vec<(usize, Line)>) -> Result<Vec<(usize, Change)>, LinesFault>
    ensures given { IfOk result (λ changes. AreGiven no_file lines.items changes.items) }
    ensures refused { IfErr result (MayRefuseLines lines.items) }
{
    let mut changes = Vec::new(alloc);
    for numbered in lines {
        let (number, line) = numbered;
        match line {
            Line::Plain(change) => match changes.push((number, change)) {
                Ok(()) => {}
                Err(_) => return Err(LinesFault::NoMemory),
            },
            Line::File(_, _) => return Err(LinesFault::Named(number)),
        }
    }
    Ok(changes)
}

/// The file of the tree that changes make of another file's.
fn update(
    alloc: Global,
    file: &[u8],
    changes: Vec<(usize, Change)>,
    out: &mut [u8],
    needed: &mut usize,
    line: &mut usize,
) -> u32
    requires needed { needed.old ≡ 0 }
    requires line { line.old ≡ 0 }
    ensures { AnswersAt (IsEdit changes.items file.now) (IsRefusedUpdate file.now changes.items) result out.old
        out.new needed.new line.new }
{
    match updated(alloc, file, changes, false) {
        Ok(renewed) => put(renewed.image.bytes(), out, needed),
        Err(fault) => {
            *line = line_of(fault);
            edit_number(fault)
        }
    }
}

/// The line of a fault of an edit; 0 where it is of none.
fn line_of(fault: EditFault) -> usize
    ensures { result ≡ edit_line fault }
{
    match fault {
        EditFault::Line(number, _) => number,
        _ => 0,
    }
}
