//! Reports of worlds, and writers that fail.

use std::alloc::Global;
use std::io;
use std::io::{ErrorKind, Write};
use world_run::report::ReportFault;
use world_run::world::World;

/// A writer that fails.
#[derive(Drop)]
struct Closed;

impl Write for Closed {
    fn write(&mut self, _buf: &[u8]) -> io::Result<usize> {
        Err(io::Error::from(ErrorKind::Other))
    }

    fn flush(&mut self) -> io::Result<()> {
        Err(io::Error::from(ErrorKind::Other))
    }
}

fn write<W: Write>(alloc: Global, world: &World, writer: &mut W) -> Result<(), ReportFault> {
    world.report(alloc, writer)
}

/// A report that is written, tried twice.
fn told(alloc: Global, world: &World, text: &mut Vec<u8>) -> bool {
    write(alloc, world, text).is_ok() || write(alloc, world, text).is_ok()
}

/// Whether a world's report is this one.
pub(crate) fn is_report(alloc: Global, world: &World, want: &str) -> bool {
    let mut text = Vec::new(alloc);
    told(alloc, world, &mut text) && text.as_slice() == want.as_bytes()
}

/// Whether a report is refused because writes fail.
pub(crate) fn is_unwritten(alloc: Global, world: &World) -> bool {
    match write(alloc, world, &mut Closed) {
        Err(ReportFault::Unwritable) => true,
        _ => false,
    }
}
