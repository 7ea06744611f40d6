//! A link in memory, as its server meets it.

ghost use Rattle.std.specs.Prelude.{◌≤◌, length};

use std::alloc::{AllocError, Global};
use std::io::{self, ErrorKind, Read, Write};

/// The bytes that are on their way to a server.
#[derive(Drop)]
pub(crate) struct Inward {
    bytes: Vec<u8>,
}

impl Inward {
    /// Nothing is on its way.
    pub(crate) fn new(alloc: Global) -> Inward {
        Inward {
            bytes: Vec::new(alloc),
        }
    }

    /// Sends bytes to the server.
    pub(crate) fn send(&mut self, bytes: &[u8]) -> Result<(), AllocError> {
        self.bytes.extend_from_slice(bytes)?;
        Ok(())
    }
}

/// A read fails where nothing is on its way.
impl Read for Inward {
    fn read(&mut self, buf: &mut [u8]) -> io::Result<usize> {
        if self.bytes.is_empty() {
            return Err(io::Error::from(ErrorKind::WouldBlock));
        }
        Ok(take_front(&mut self.bytes, buf))
    }
}

/// The bytes that come from a server, and whether there was no memory for some.
#[derive(Drop)]
pub(crate) struct Outward {
    bytes: Vec<u8>,
    lacks: bool,
}

impl Outward {
    /// Nothing came.
    pub(crate) fn new(alloc: Global) -> Outward {
        Outward {
            bytes: Vec::new(alloc),
            lacks: false,
        }
    }

    /// Whether there was no memory for bytes that the server wrote.
    pub(crate) fn lacks(&self) -> bool {
        self.lacks
    }

    /// Takes what came from the server, as much as there is room for.
    pub(crate) fn take(&mut self, into: &mut [u8]) -> usize
        ensures { result ≤ length into.new }
    {
        take_front(&mut self.bytes, into)
    }
}

impl Write for Outward {
    fn write(&mut self, buf: &[u8]) -> io::Result<usize> {
        match self.bytes.extend_from_slice(buf) {
            Ok(()) => Ok(buf.len()),
            Err(_) => {
                self.lacks = true;
                Err(io::Error::from(ErrorKind::OutOfMemory))
            }
        }
    }

    fn flush(&mut self) -> io::Result<()> {
        Ok(())
    }
}

/// Moves the first bytes of a list to a place, and tells how many.
fn take_front(from: &mut Vec<u8>, into: &mut [u8]) -> usize
    ensures { result ≤ length into.new }
{
    let n = from.len().min(into.len());
    into[..n].copy_from_slice(&from[..n]);
    for k in n..from.len() {
        from[k - n] = from[k];
    }
    from.truncate(from.len() - n);
    n
}
