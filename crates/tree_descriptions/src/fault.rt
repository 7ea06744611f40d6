//! Why a description is refused.

use cfb_names::fault::DirFault;
use text_io::input::InputFault;
use text_io::lines::SyntaxFault;
use thiserror::Error;
use tree_storage::fault::TreeFault;

/// Why a line of a description is refused.
#[derive(Debug, Clone, Copy, Error)]
pub enum LineFault {
    /// The line is outside the grammar.
    #[error("the line is outside the grammar")]
    Bad,
    /// A name of its path is none that a directory takes.
    #[error("{0}")]
    Name(DirFault),
    /// The tree doesn't take it.
    #[error("{0}")]
    Tree(TreeFault),
    /// No memory was left.
    #[error("no memory is left")]
    NoMemory,
}

/// Why a description that a reader gives is refused.
#[derive(Debug, Clone, Copy, Error)]
pub enum TextFault {
    /// It isn't read, or no memory was left for it.
    #[error("{0}")]
    Input(InputFault),
    /// A line of it is refused.
    #[error("line {0}: {1}")]
    Line(usize, LineFault),
}

impl LineFault {
    ghost use Rattle.std.specs.Prelude.{◌≡◌};
    ghost use Rattle.tree_descriptions.specs.Faults.{line_fault_name};

    /// The fault's name, as it is printed.
    pub fn name(&self) -> &'static str
        ensures { result.now ≡ line_fault_name self.now }
    {
        match self {
            LineFault::Bad => "Bad",
            LineFault::Name(fault) => fault.name(),
            LineFault::Tree(fault) => fault.name(),
            LineFault::NoMemory => "NoMemory",
        }
    }
}

impl From<InputFault> for TextFault {
    ghost use Rattle.std.specs.Prelude.{◌≡◌};
    ghost use Rattle.tree_descriptions.specs.declared.fault.TextFault.TheVariants.{Input};

    ghost from_gives = { λ fault e. e ≡ Input fault };

    fn from(fault: InputFault) -> Self {
        TextFault::Input(fault)
    }
}

impl From<SyntaxFault> for LineFault {
    ghost use Rattle.std.specs.Prelude.{◌≡◌};
    ghost use Rattle.tree_descriptions.specs.Faults.{of_syntax_fault};

    ghost from_gives = { λ fault e. e ≡ of_syntax_fault fault };

    fn from(fault: SyntaxFault) -> Self {
        match fault {
            SyntaxFault::Bad => LineFault::Bad,
            SyntaxFault::NoMemory => LineFault::NoMemory,
        }
    }
}

impl From<TreeFault> for LineFault {
    ghost use Rattle.std.specs.Prelude.{◌≡◌};
    ghost use Rattle.tree_descriptions.specs.Faults.{of_tree_fault};

    ghost from_gives = { λ fault e. e ≡ of_tree_fault fault };

    fn from(fault: TreeFault) -> Self {
        match fault {
            TreeFault::NoMemory => LineFault::NoMemory,
            _ => LineFault::Tree(fault),
        }
    }
}
