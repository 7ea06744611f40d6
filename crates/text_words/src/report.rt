//! The lines in which faults are printed.

use crate::told::Told;
use std::fmt;

/// The name that is printed for a standard stream.
pub const STANDARD: &str = "-";

/// A fault as it is printed, with the file or the line that it was found in.
#[derive(Clone, Copy)]
pub enum Report<'a> {
    /// The file's name, which is told as `Told` does, and the fault's.
    File(&'a str, &'static str),
    /// The line's number, and the fault's name.
    Line(usize, &'static str),
}

impl<'a> fmt::Display for Report<'a> {
    ghost use Rattle.text_words.specs.Reports.{report_text};
    ghost use Rattle.std.specs.Prelude.{Some};

    ghost output = { λ report. Some (report_text report) };

    fn fmt<W: fmt::Write>(&self, f: &mut fmt::Formatter<W>) -> fmt::Result {
        match self {
            Report::File(name, fault) => {
                let file = Told(name);
                write!(f, "file {file}: {fault}")
            }
            Report::Line(number, fault) => write!(f, "line {number}: {fault}"),
        }
    }
}
