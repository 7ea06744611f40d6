//! Readers, sources and writers that fail.

use read_source::source::Source;
use std::io;
use std::io::{ErrorKind, Read, Write};

/// A reader that gives a byte at a time, and then fails; or a source that gives its length, and no byte.
#[derive(Drop)]
pub struct Failing<'a> {
    pub rest: &'a [u8],
}

impl<'a> Read for Failing<'a> {
    fn read(&mut self, buf: &mut [u8]) -> io::Result<usize> {
        match (self.rest, buf) {
            ([first, rest @ ..], [place, ..]) => {
                *place = *first;
                self.rest = rest;
                Ok(1)
            }
            _ => Err(io::Error::from(ErrorKind::Other)),
        }
    }
}

impl<'a> Source for Failing<'a> {
    fn size(&mut self) -> io::Result<u64> {
        Ok(self.rest.len() as u64)
    }

    fn read_at(&mut self, _at: u64, _buf: &mut [u8]) -> io::Result<()> {
        Err(io::Error::from(ErrorKind::Other))
    }
}

/// A writer that takes a byte at a time, so many in all, and then fails.
#[derive(Drop)]
pub struct Full {
    pub room: usize,
}

impl Write for Full {
    fn write(&mut self, buf: &[u8]) -> io::Result<usize> {
        if self.room == 0 {
            return Err(io::Error::from(ErrorKind::Other));
        }
        self.room -= 1;
        Ok(buf.len().min(1))
    }

    fn flush(&mut self) -> io::Result<()> {
        Ok(())
    }
}
