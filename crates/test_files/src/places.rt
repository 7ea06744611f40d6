//! Reading only the places of a file that its listing needs.

use crate::reading::{FILE, first_size};
use crate::texts::{are_all, spelled};
use read_files::read::read_placed;
use read_source::fault::PlacesFault;
use read_source::reading::{Catalog, read_catalog};
use read_source::source::{Sought, Source};
use std::alloc::Global;
use std::io::{self, Cursor, ErrorKind};

/// How many calls the file takes: one for its length, and one each for its header, the FAT, the directory and the mini
/// FAT.
const CALLS: usize = 5;

/// Bytes of which no more is told after so many calls.
#[derive(Drop)]
struct Broken<'a> {
    bytes: &'a [u8],
    calls: usize,
}

impl<'a> Broken<'a> {
    fn call(&mut self) -> io::Result<()> {
        if self.calls == 0 {
            return Err(io::Error::from(ErrorKind::Other));
        }
        self.calls -= 1;
        Ok(())
    }
}

impl<'a> Source for Broken<'a> {
    fn size(&mut self) -> io::Result<u64> {
        self.call()?;
        self.bytes.size()
    }

    fn read_at(&mut self, at: u64, buf: &mut [u8]) -> io::Result<()> {
        self.call()?;
        self.bytes.read_at(at, buf)
    }
}

fn cataloged<S: Source>(alloc: Global, source: &mut S) -> Result<Catalog, PlacesFault> {
    read_catalog(alloc, source)
}

/// Whether a block has zeros alone.
fn is_zeros(alloc: Global, catalog: &Catalog, n: u8) -> bool {
    let mut block = Vec::new(alloc);
    match catalog.file.push_block(&mut block, n as usize) {
        Ok(()) => are_all(&block, 0),
        Err(_) => false,
    }
}

/// Whether the header, the FAT, the directory and the mini FAT are there, and the mini stream isn't.
fn is_small(alloc: Global, catalog: &Catalog) -> bool {
    for n in 0..4 {
        if is_zeros(alloc, catalog, n) {
            return false;
        }
    }
    is_zeros(alloc, catalog, 4)
}

fn listed<S: Source>(alloc: Global, source: &mut S) -> Option<u32> {
    let Ok(catalog) = read_catalog(alloc, source) else {
        return None;
    };
    if !is_small(alloc, &catalog) {
        return None;
    }
    let Ok(outline) = read_placed(alloc, &catalog.header, &catalog.file) else {
        return None;
    };
    first_size(&outline)
}

fn is_unreadable(answer: Result<Catalog, PlacesFault>) -> bool {
    match answer {
        Err(fault) => fault == PlacesFault::Unreadable,
        Ok(_) => false,
    }
}

fn is_sought(alloc: Global, file: &[u8]) -> bool {
    listed(alloc, &mut Sought::new(Cursor::new(file))) == Some(3)
}

#[test]
fn a_listing_reads_its_places(rt: HostRuntime) {
    let file = spelled(&rt, rt.alloc(), FILE);
    assert!(rt; listed(rt.alloc(), &mut file.as_slice()) == Some(3));
    assert!(rt; is_sought(rt.alloc(), &file));
}

fn fails(alloc: Global, bytes: &[u8], calls: usize) -> bool {
    let mut source = Broken { bytes, calls };
    is_unreadable(cataloged(alloc, &mut source))
}

fn is_listed(alloc: Global, bytes: &[u8], calls: usize) -> bool {
    let mut source = Broken { bytes, calls };
    listed(alloc, &mut source) == Some(3)
}

#[test]
fn a_read_that_fails_is_told(rt: HostRuntime) {
    let file = spelled(&rt, rt.alloc(), FILE);
    for calls in 0..CALLS {
        assert!(rt; fails(rt.alloc(), &file, calls), "{calls}");
    }
    assert!(rt; is_listed(rt.alloc(), &file, CALLS));
}
