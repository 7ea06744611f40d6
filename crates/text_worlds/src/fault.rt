//! Why no moments are run.

use text_io::input::InputFault;
use text_io::lines::SyntaxFault;
use text_words::report::{Report, STANDARD};
use thiserror::Error;

/// Why no moments are run.
#[derive(Debug, Clone, Copy, Error)]
pub enum SimulateFault {
    /// The moments aren't read.
    #[error("{0}")]
    Input(InputFault),
    /// A line of the moments is refused.
    #[error("line {0}: {1}")]
    Line(usize, SyntaxFault),
    /// No memory was left for what is printed.
    #[error("no memory is left")]
    NoMemory,
    /// A write fails.
    #[error("writing fails")]
    Unwritable,
}

impl SimulateFault {
    ghost use Rattle.text_worlds.specs.Faults.{simulate_report};
    ghost use Rattle.std.specs.Prelude.{◌≡◌};
    ghost use Rattle.text_words.specs.Reports.{report_text};

    /// How the fault is printed where the moments of a file of this name are run.
    pub fn report<'a>(&self, file: &'a str) -> Report<'a>
        ensures { report_text result ≡ simulate_report self.now file.entry.now }
    {
        match self {
            SimulateFault::Input(fault) => Report::File(file, fault.name()),
            SimulateFault::Line(number, fault) => Report::Line(*number, fault.name()),
            SimulateFault::NoMemory => Report::File(file, "NoMemory"),
            SimulateFault::Unwritable => Report::File(STANDARD, "Unwritable"),
        }
    }
}
