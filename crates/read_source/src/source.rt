//! Where the bytes of a file are read from, at any place.

ghost use Rattle.std.specs.Prelude.{◌≡◌, IfOk, IfSome, List, None, OnOk, Option, Some, drop, length, take, ℕ};

use std::io::{self, ErrorKind, Read, Seek, SeekFrom};

/// What gives the bytes of a file at any place.
pub trait Source {
    // The bytes, where they are known.
    ghost bytes: { Self → Option (List ℕ) } = { λ _. None };

    /// How many bytes there are.
    fn size(&mut self) -> io::Result<u64>
        ensures counted { IfOk result (λ n. IfSome (bytes self.old) (λ all. n ≡ length all)) }
        ensures kept { bytes self.new ≡ bytes self.old };

    /// Fills a buffer with the bytes from a place on.
    fn read_at(&mut self, at: u64, buf: &mut [u8]) -> io::Result<()>
        ensures filled { OnOk result (IfSome (bytes self.old) (λ all. buf.new ≡ take (length buf.old) (drop at all))) }
        ensures kept { bytes self.new ≡ bytes self.old };
}

/// A file in which is sought. What it holds isn't known to a contract.
#[derive(Drop)]
pub struct Sought<F> {
    file: F,
}

impl<F: Read + Seek> Sought<F> {
    /// Over a file.
    pub fn new(file: F) -> Sought<F> {
        Sought { file }
    }
}

impl<F: Read + Seek> Source for Sought<F> {
    fn size(&mut self) -> io::Result<u64> {
        self.file.seek(SeekFrom::End(0))
    }

    fn read_at(&mut self, at: u64, buf: &mut [u8]) -> io::Result<()> {
        self.file.seek(SeekFrom::Start(at))?;
        self.file.read_exact(buf)
    }
}

/// Bytes in memory are all known.
impl<'a> Source for &'a [u8] {
    ghost bytes = { λ s. Some s.now };

    fn size(&mut self) -> io::Result<u64> {
        Ok(self.len() as u64)
    }

    fn read_at(&mut self, at: u64, buf: &mut [u8]) -> io::Result<()> {
        let Some(rest) = self.get(at as usize..) else {
            return Err(io::Error::from(ErrorKind::UnexpectedEof));
        };
        let Some(part) = rest.get(..buf.len()) else {
            return Err(io::Error::from(ErrorKind::UnexpectedEof));
        };
        buf.copy_from_slice(part);
        Ok(())
    }
}
