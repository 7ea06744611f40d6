//! The commands, and what is told of each: what it gave, or what is printed where it is refused. The functions that
//! only call a command leave its contract behind, so that those above are quick to prove.

use cfb_names::name::Name;
use read_source::source::Source;
use std::alloc::{AllocError, Global};
use std::io::{Read, Write};
use tell_files::fault::GetFault;
use tell_files::getting::get_stream;
use tell_lists::fault::ListFault;
use tell_lists::listing::list_file;
use text_spelling::path::Path;
use text_words::report::Report;
use text_worlds::fault::SimulateFault;
use text_worlds::simulation::{read_moments, write_told};
use write_cleaned::cleaning::clean_file;
use write_cleaned::fault::CleanFault;
use write_described::fault::MakeFault;
use write_described::making::make_file;

fn printed(alloc: Global, report: Report<'_>) -> Result<String, AllocError> {
    report.to_string(alloc)
}

fn made<R: Read, W: Write>(
    alloc: Global,
    reader: &mut R,
    writer: &mut W,
) -> Result<usize, MakeFault> {
    make_file(alloc, reader, writer)
}

pub(crate) fn make<R: Read, W: Write>(
    alloc: Global,
    reader: &mut R,
    writer: &mut W,
) -> Result<String, AllocError> {
    match made(alloc, reader, writer) {
        Ok(count) => count.to_string(alloc),
        Err(fault) => printed(alloc, fault.report("a.ole")),
    }
}

fn listed<S: Source, W: Write>(
    alloc: Global,
    source: &mut S,
    writer: &mut W,
) -> Result<(), ListFault> {
    list_file(alloc, source, writer)
}

pub(crate) fn list<S: Source, W: Write>(
    alloc: Global,
    source: &mut S,
    writer: &mut W,
) -> Result<String, AllocError> {
    match listed(alloc, source, writer) {
        Ok(()) => String::from_str(alloc, "listed"),
        Err(fault) => printed(alloc, fault.report("a.ole")),
    }
}

fn got<S: Source, W: Write>(
    alloc: Global,
    source: &mut S,
    path: &[Name],
    writer: &mut W,
) -> Result<(), GetFault> {
    get_stream(alloc, source, path, writer)
}

fn get_at<S: Source, W: Write>(
    alloc: Global,
    source: &mut S,
    path: &[Name],
    writer: &mut W,
) -> Result<String, AllocError> {
    match got(alloc, source, path, writer) {
        Ok(()) => String::from_str(alloc, "written"),
        Err(fault) => printed(alloc, fault.report("a.ole")),
    }
}

/// The stream at a path that a word spells; a word that spells none is the root's.
pub(crate) fn get<S: Source, W: Write>(
    alloc: Global,
    source: &mut S,
    word: &str,
    writer: &mut W,
) -> Result<String, AllocError> {
    match Path::parse(alloc, word.as_bytes())? {
        Some(path) => match path.names() {
            Ok(names) => get_at(alloc, source, names, writer),
            Err(fault) => String::from_str(alloc, fault.name()),
        },
        None => get_at(alloc, source, &[], writer),
    }
}

fn cleaned<S: Source, W: Write>(
    alloc: Global,
    source: &mut S,
    writer: &mut W,
) -> Result<usize, CleanFault> {
    match clean_file(alloc, source, writer) {
        Ok((count, _)) => Ok(count),
        Err(fault) => Err(fault),
    }
}

pub(crate) fn clean<S: Source, W: Write>(
    alloc: Global,
    source: &mut S,
    writer: &mut W,
) -> Result<String, AllocError> {
    match cleaned(alloc, source, writer) {
        Ok(count) => count.to_string(alloc),
        Err(fault) => printed(alloc, fault.report("a.ole", "b.ole")),
    }
}

fn simulated<R: Read, W: Write>(
    alloc: Global,
    reader: &mut R,
    writer: &mut W,
    told: &str,
) -> Result<(), SimulateFault> {
    drop(read_moments(alloc, reader)?);
    write_told(writer, told.as_bytes())
}

/// The two ends of a simulation: its events are read, and in the place of what they lead to this text is written.
pub(crate) fn simulate<R: Read, W: Write>(
    alloc: Global,
    reader: &mut R,
    writer: &mut W,
    told: &str,
) -> Result<String, AllocError> {
    match simulated(alloc, reader, writer, told) {
        Ok(()) => String::from_str(alloc, "run"),
        Err(fault) => printed(alloc, fault.report("e")),
    }
}
