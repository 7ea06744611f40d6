//! The numbers of the faults, and their names.

ghost use Rattle.program_calls.specs.Numbers.{chain_name, chain_number, directory_name, directory_number, edit_number};
ghost use Rattle.program_calls.specs.Numbers.{line_number, number_name, read_number, syntax_number, tree_name};
ghost use Rattle.program_calls.specs.Numbers.{tree_number, write_number};
ghost use Rattle.std.specs.Prelude.{◌≡◌, ◌<◌};

use cfb_file::fault::WriteFault;
use cfb_header::fault::ChainFault;
use cfb_names::fault::DirFault;
use read_files::fault::ReadFault;
use store_edits::fault::EditFault;
use text_io::lines::SyntaxFault;
use tree_descriptions::fault::LineFault;
use tree_storage::fault::TreeFault;

/// What is told where all was done.
pub const DONE: u32 = 0;

/// What is told where the place for the bytes is too short.
pub const NO_ROOM: u32 = 1;

/// What is told where no memory was left.
pub const NO_MEMORY: u32 = 2;

/// What is told where there are more bytes than are taken.
pub const TOO_BIG: u32 = 3;

/// What is told of a file that a line of an edit names, since in memory none has a name.
pub const UNREADABLE: u32 = 4;

/// What is told of a path that no word spells so.
pub const BAD_PATH: u32 = 41;

fn chain_number(fault: ChainFault) -> u32
    ensures number { result ≡ chain_number fault }
    ensures fault { 1 < result }
{
    match fault {
        ChainFault::NoMemory => 2,
        ChainFault::TooBig => 3,
        ChainFault::Truncated => 10,
        ChainFault::BadSignature => 11,
        ChainFault::Unsupported(_) => 12,
        ChainFault::OutOfFile => 13,
        ChainFault::Cycle => 14,
        ChainFault::CrossLinked => 15,
        ChainFault::ShortChain => 16,
    }
}

/// The number of a fault of a directory or of a name.
pub(crate) fn directory_number(fault: DirFault) -> u32
    ensures number { result ≡ directory_number fault }
    ensures fault { 1 < result }
{
    match fault {
        DirFault::NoMemory => 2,
        DirFault::BadEntry => 20,
        DirFault::TreeCycle => 21,
        DirFault::TooNested => 22,
        DirFault::NameEmpty => 23,
        DirFault::NameTooLong => 24,
        DirFault::NameNotAscii => 25,
        DirFault::NameForbidden => 26,
        DirFault::DuplicateName => 27,
    }
}

/// The number of a fault of a tree.
pub(crate) fn tree_number(fault: TreeFault) -> u32
    ensures number { result ≡ tree_number fault }
    ensures fault { 1 < result }
{
    match fault {
        TreeFault::NoMemory => 2,
        TreeFault::NotFound => 30,
        TreeFault::WrongKind => 31,
        TreeFault::Exists => 32,
        TreeFault::TooDeep => 33,
        TreeFault::NoTransaction => 34,
    }
}

/// The number of a fault of a file that isn't read.
pub(crate) fn read_number(fault: ReadFault) -> u32
    ensures number { result ≡ read_number fault }
    ensures fault { 1 < result }
{
    match fault {
        ReadFault::Chain(fault) => chain_number(fault),
        ReadFault::Directory(fault) => directory_number(fault),
        ReadFault::NoMemory => 2,
    }
}

/// The number of a fault of a tree that isn't written.
pub(crate) fn write_number(fault: WriteFault) -> u32
    ensures number { result ≡ write_number fault }
    ensures fault { 1 < result }
{
    match fault {
        WriteFault::NoMemory => 2,
        WriteFault::TooBig => 3,
    }
}

/// The number of a fault of a line.
pub(crate) fn line_number(fault: LineFault) -> u32
    ensures number { result ≡ line_number fault }
    ensures fault { 1 < result }
{
    match fault {
        LineFault::NoMemory => 2,
        LineFault::Bad => 40,
        LineFault::Name(fault) => directory_number(fault),
        LineFault::Tree(fault) => tree_number(fault),
    }
}

/// The number of a fault of the lines of a text.
pub(crate) fn syntax_number(fault: SyntaxFault) -> u32
    ensures number { result ≡ syntax_number fault }
    ensures fault { 1 < result }
{
    match fault {
        SyntaxFault::Bad => 40,
        SyntaxFault::NoMemory => 2,
    }
}

/// The number of a fault of a file that is edited. In memory a store refuses only a file that is too big.
pub(crate) fn edit_number(fault: EditFault) -> u32
    ensures number { result ≡ edit_number fault }
    ensures fault { 1 < result }
{
    match fault {
        EditFault::Store(_) => TOO_BIG,
        EditFault::Read(fault) => read_number(fault),
        EditFault::Line(_, fault) => line_number(fault),
        EditFault::Write(fault) => write_number(fault),
    }
}

/// The name of the fault of a number, as the program prints it; empty for a number of no fault.
pub fn number_name(number: u32) -> &'static str
    ensures { result.now ≡ number_name number }
{
    match number {
        NO_ROOM => "NoRoom",
        2 => "NoMemory",
        TOO_BIG => "TooBig",
        UNREADABLE => "Unreadable",
        _ => chain_name(number),
    }
}

fn chain_name(number: u32) -> &'static str
    ensures { result.now ≡ chain_name number }
{
    match number {
        10 => "Truncated",
        11 => "BadSignature",
        12 => "Unsupported",
        13 => "OutOfFile",
        14 => "Cycle",
        15 => "CrossLinked",
        16 => "ShortChain",
        _ => directory_name(number),
    }
}

fn directory_name(number: u32) -> &'static str
    ensures { result.now ≡ directory_name number }
{
    match number {
        20 => "BadEntry",
        21 => "TreeCycle",
        22 => "TooNested",
        23 => "NameEmpty",
        24 => "NameTooLong",
        25 => "NameNotAscii",
        26 => "NameForbidden",
        27 => "DuplicateName",
        _ => tree_name(number),
    }
}

fn tree_name(number: u32) -> &'static str
    ensures { result.now ≡ tree_name number }
{
    match number {
        30 => "NotFound",
        31 => "WrongKind",
        32 => "Exists",
        33 => "TooDeep",
        34 => "NoTransaction",
        40 => "Bad",
        BAD_PATH => "BadPath",
        _ => "",
    }
}
