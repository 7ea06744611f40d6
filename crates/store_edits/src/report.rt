//! What is printed of a fault.

use crate::fault::EditFault;
use text_words::report::Report;

impl EditFault {
    ghost use Rattle.std.specs.Prelude.{◌≡◌};
    ghost use Rattle.store_edits.specs.Reports.{change_report, edit_report};
    ghost use Rattle.text_words.specs.Reports.{report_text};

    /// How the fault is printed where a file of this name is changed by lines.
    pub fn report<'a>(&self, file: &'a str) -> Report<'a>
        ensures { report_text result ≡ edit_report self.now file.entry.now }
    {
        match self {
            EditFault::Store(fault) => Report::File(file, fault.name()),
            EditFault::Read(fault) => Report::File(file, fault.name()),
            EditFault::Line(number, fault) => Report::Line(*number, fault.name()),
            EditFault::Write(fault) => Report::File(file, fault.name()),
        }
    }

    /// How the fault is printed where one change of a file of this name is asked for by the command line.
    pub fn report_alone<'a>(&self, file: &'a str) -> Report<'a>
        ensures { report_text result ≡ change_report self.now file.entry.now }
    {
        match self {
            EditFault::Store(fault) => Report::File(file, fault.name()),
            EditFault::Read(fault) => Report::File(file, fault.name()),
            EditFault::Line(_, fault) => Report::File(file, fault.name()),
            EditFault::Write(fault) => Report::File(file, fault.name()),
        }
    }
}
