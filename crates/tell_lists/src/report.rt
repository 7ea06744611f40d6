//! What is printed of a fault.

use crate::fault::ListFault;
use text_words::report::{Report, STANDARD};

impl ListFault {
    ghost use Rattle.std.specs.Prelude.{◌≡◌};
    ghost use Rattle.tell_lists.specs.Reports.{list_report};
    ghost use Rattle.text_words.specs.Reports.{report_text};

    /// How the fault is printed where a file of this name is listed on standard output.
    pub fn report<'a>(&self, file: &'a str) -> Report<'a>
        ensures { report_text result ≡ list_report self.now file.entry.now }
    {
        match self {
            ListFault::Input(fault) => Report::File(file, fault.name()),
            ListFault::Read(fault) => Report::File(file, fault.name()),
            ListFault::Unwritable => Report::File(STANDARD, "Unwritable"),
            ListFault::NoMemory => Report::File(file, "NoMemory"),
        }
    }
}
