//! What is printed of a fault.

use crate::fault::MakeFault;
use text_io::input::InputFault;
use text_words::report::{Report, STANDARD};

impl MakeFault {
    ghost use Rattle.std.specs.Prelude.{◌≡◌};
    ghost use Rattle.write_described.specs.Reports.{make_report};
    ghost use Rattle.text_words.specs.Reports.{report_text};

    /// How the fault is printed where a file of this name is made from standard input.
    pub fn report<'a>(&self, file: &'a str) -> Report<'a>
        ensures { report_text result ≡ make_report self.now file.entry.now }
    {
        match self {
            MakeFault::Input(InputFault::NoMemory) => {
                Report::File(file, InputFault::NoMemory.name())
            }
            MakeFault::Input(fault) => Report::File(STANDARD, fault.name()),
            MakeFault::Line(number, fault) => Report::Line(*number, fault.name()),
            MakeFault::Write(fault) => Report::File(file, fault.name()),
            MakeFault::Unwritable => Report::File(file, "Unwritable"),
        }
    }
}
