//! What is printed of a fault.

use crate::fault::CleanFault;
use text_words::report::Report;

impl CleanFault {
    ghost use Rattle.std.specs.Prelude.{◌≡◌};
    ghost use Rattle.write_cleaned.specs.Reports.{clean_report};
    ghost use Rattle.text_words.specs.Reports.{report_text};

    /// How the fault is printed where the tree of a file of one name is written to a file of another.
    pub fn report<'a>(&self, file: &'a str, out: &'a str) -> Report<'a>
        ensures { report_text result ≡ clean_report self.now file.entry.now out.entry.now }
    {
        match self {
            CleanFault::Input(fault) => Report::File(file, fault.name()),
            CleanFault::Read(fault) => Report::File(file, fault.name()),
            CleanFault::Write(fault) => Report::File(out, fault.name()),
            CleanFault::Cut(fault) => Report::File(file, fault.name()),
            CleanFault::Unwritable => Report::File(out, "Unwritable"),
        }
    }
}
