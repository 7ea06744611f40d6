//! Texts that are read line by line, so that they are never held whole.

ghost use Rattle.std.specs.Prelude.{◌≡◌, ◌≤◌, ◌<◌, ◌+◌, ◌++◌, IfErr, IfOk, IfSome, IsTrue, OnOk, length};
ghost use Rattle.text_io.specs.Input.{most};
ghost use Rattle.text_io.specs.Lines.{is_skipped};
ghost use Rattle.text_io.specs.Reading.{IsPart, LeavesLine, LeavesNext, MayRefuseBytes};

use crate::input::InputFault;
use std::io::{BufRead, ErrorKind};
use text_words::words::cut;

/// The most bytes that a text may have.
const MOST: u64 = 134_217_728;

/// How far a text was read.
#[derive(Clone, Copy)]
pub struct Passed {
    /// How many lines are behind us.
    pub lines: usize,
    /// How many bytes are.
    pub bytes: u64,
}

/// What was read of a line.
#[derive(Clone, Copy)]
enum Part {
    /// Nothing, since a signal came.
    Nothing,
    /// Nothing, since the text ends there.
    End,
    /// A front of what is left of the line.
    Front,
    /// What is left of the line, and its line feed.
    Last,
}

impl Passed {
    ghost use Rattle.std.specs.Prelude.{◌≡◌};

    /// Where a text begins.
    pub fn nothing() -> Passed
        ensures lines { result.lines ≡ 0 }
        ensures bytes { result.bytes ≡ 0 }
    {
        Passed { lines: 0, bytes: 0 }
    }
}

/// Whether a line says nothing: it is empty, or it begins with `#`.
fn is_skipped(line: &[u8]) -> bool
    ensures { result ≡ is_skipped line.now }
{
    match line {
        [] => true,
        [first, ..] => *first == b'#',
    }
}

/// Reads on to the next line that asks for something, leaves it in `line` without its line feed, and gives its number
/// from
/// 1. None at the text's end. Empty lines and lines that begin with `#` are skipped.
///
/// Refused: `TooBig` once more than 134,217,728 bytes were read; `Unreadable` or `NoMemory` where a read fails.
pub fn next_line<R: BufRead>(
    reader: &mut R,
    line: &mut Vec<u8>,
    passed: &mut Passed,
) -> Result<Option<usize>, InputFault>
    requires lines { passed.old.lines ≤ passed.old.bytes }
    requires bytes { passed.old.bytes ≤ most }
    ensures lines { OnOk result (passed.new.lines ≤ passed.new.bytes) }
    ensures bytes { OnOk result (passed.new.bytes ≤ most) }
    ensures more { IfOk result (λ found. IfSome found (λ _. passed.old.bytes < passed.new.bytes)) }
    ensures read { IfOk result (λ found. IfSome (R.remaining reader.old)
        (λ text. LeavesNext found passed.old passed.new line.new.items text (R.remaining reader.new))) }
    ensures refused { IfErr result (λ fault. IfSome (R.remaining reader.old)
        (λ text. MayRefuseBytes (passed.old.bytes + length text) fault)) }
{
    while read_line(reader, line, passed)? {
        if !is_skipped(line) {
            return Ok(Some(passed.lines));
        }
    }
    Ok(None)
}

/// Reads one line, which is left in `line` without its line feed, and says whether there was one.
fn read_line<R: BufRead>(
    reader: &mut R,
    line: &mut Vec<u8>,
    passed: &mut Passed,
) -> Result<bool, InputFault>
    requires lines { passed.old.lines ≤ passed.old.bytes }
    requires bytes { passed.old.bytes ≤ most }
    ensures lines { OnOk result (passed.new.lines ≤ passed.new.bytes) }
    ensures bytes { OnOk result (passed.new.bytes ≤ most) }
    ensures more { IfOk result (λ is. IsTrue is → passed.old.bytes < passed.new.bytes) }
    ensures read { IfOk result (λ is. IfSome (R.remaining reader.old)
        (λ text. LeavesLine is passed.old passed.new line.new.items text (R.remaining reader.new))) }
    ensures refused { IfErr result (λ fault. IfSome (R.remaining reader.old)
        (λ text. MayRefuseBytes (passed.old.bytes + length text) fault)) }
{
    line.clear();
    let before = passed.bytes;
    for _ in 0..u64::MAX {
        match read_part(reader, line, passed) {
            Ok(Part::Nothing) => continue,
            Ok(Part::Front) => {}
            Ok(Part::Last) => {
                passed.lines += 1;
                return Ok(true);
            }
            Ok(Part::End) => {
                if passed.bytes == before {
                    return Ok(false);
                }
                // The last line has no line feed.
                passed.lines += 1;
                return Ok(true);
            }
            Err(fault) => return Err(fault),
        }
    }
    Err(InputFault::Unreadable)
}

/// Reads on in a line, as far as the reader has bytes at hand, and puts what it reads behind `line`.
fn read_part<R: BufRead>(
    reader: &mut R,
    line: &mut Vec<u8>,
    passed: &mut Passed,
) -> Result<Part, InputFault>
    requires { passed.old.bytes ≤ most }
    ensures lines { passed.new.lines ≡ passed.old.lines }
    ensures bytes { OnOk result (passed.new.bytes ≤ most) }
    ensures read { IfOk result (λ part. IsPart part passed.old passed.new line.old.items line.new.items
        (R.remaining reader.old) (R.remaining reader.new)) }
    ensures refused { IfErr result (λ fault. IfSome (R.remaining reader.old)
        (λ text. MayRefuseBytes (passed.old.bytes + length text) fault)) }
{
    let available = match reader.fill_buf() {
        Ok(available) => available,
        Err(error) => {
            return match error.kind() {
                ErrorKind::Interrupted => Ok(Part::Nothing),
                ErrorKind::OutOfMemory => Err(InputFault::NoMemory),
                _ => Err(InputFault::Unreadable),
            };
        }
    };
    let (piece, rest) = cut(available, b'\n');
    match rest {
        Some(_) => {
            let taken = piece.len() + 1;
            match keep(line, passed, piece, taken) {
                Ok(()) => {}
                Err(fault) => return Err(fault),
            }
            reader.consume(taken);
            Ok(Part::Last)
        }
        None => {
            let taken = piece.len();
            if taken == 0 {
                return Ok(Part::End);
            }
            match keep(line, passed, piece, taken) {
                Ok(()) => {}
                Err(fault) => return Err(fault),
            }
            reader.consume(taken);
            Ok(Part::Front)
        }
    }
}

/// Puts a piece behind a line, for which so many bytes are taken.
fn keep(
    line: &mut Vec<u8>,
    passed: &mut Passed,
    piece: &[u8],
    taken: usize,
) -> Result<(), InputFault>
    requires { passed.old.bytes ≤ most }
    ensures lines { passed.new.lines ≡ passed.old.lines }
    ensures bytes { OnOk result (passed.new.bytes ≤ most) }
    ensures counted { OnOk result (passed.new.bytes ≡ passed.old.bytes + taken) }
    ensures kept { OnOk result (line.new.items ≡ line.old.items ++ piece.now) }
    ensures refused { IfErr result (MayRefuseBytes (passed.old.bytes + taken)) }
{
    if taken as u64 > MOST - passed.bytes {
        return Err(InputFault::TooBig);
    }
    match line.extend_from_slice(piece) {
        Ok(()) => {
            passed.bytes += taken as u64;
            Ok(())
        }
        Err(_) => Err(InputFault::NoMemory),
    }
}
