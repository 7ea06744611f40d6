//! Files of a system, opened to be read.

use crate::source::{FileSource, read_source};
use program_ends::ends::refuse;
use program_ends::sources::{is_sought, open};
use read_source::source::Sought;
use std::alloc::Global;
use std::fs::OpenFile;
use std::io::{Read, Seek};
use std::process::ExitCode;
use std::rt::Runtime;
use text_io::input::InputFault;
use text_words::report::Report;

/// What gives the bytes of an open file. One that doesn't tell how long it is, as a pipe, is read to its end.
fn source_of<F: OpenFile + Read + Seek + Drop>(
    alloc: Global,
    mut file: F,
) -> Result<FileSource<F>, InputFault> {
    if is_sought(&file) {
        Ok(FileSource::Placed(Sought::new(file)))
    } else {
        read_source(alloc, &mut file)
    }
}

/// Opens a file that a command reads, as `open` does; or tells why it can't be read, or that it has more than
/// 134,217,728 bytes where that shows only as it is read, and gives the status to end with.
pub fn open_source<R: Runtime + AllocGlobal>(
    rt: &R,
    path: &str,
) -> Result<FileSource<R::File>, ExitCode> {
    match open(rt, path) {
        Ok(file) => match source_of(rt.alloc(), file) {
            Ok(source) => Ok(source),
            Err(fault) => Err(refuse(rt, &Report::File(path, fault.name()))),
        },
        Err(code) => Err(code),
    }
}
