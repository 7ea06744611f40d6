//! What is printed of a fault.

use crate::fault::GetFault;
use text_words::report::{Report, STANDARD};

impl GetFault {
    ghost use Rattle.std.specs.Prelude.{◌≡◌};
    ghost use Rattle.tell_files.specs.Reports.{get_report};
    ghost use Rattle.text_words.specs.Reports.{report_text};

    /// How the fault is printed where a stream of a file of this name is written on standard output.
    pub fn report<'a>(&self, file: &'a str) -> Report<'a>
        ensures { report_text result ≡ get_report self.now file.entry.now }
    {
        match self {
            GetFault::Input(fault) => Report::File(file, fault.name()),
            GetFault::Read(fault) => Report::File(file, fault.name()),
            GetFault::Tree(fault) => Report::File(file, fault.name()),
            GetFault::Unwritable => Report::File(STANDARD, "Unwritable"),
        }
    }
}
