//! The files of a system that lines name.

use std::alloc::Global;
use std::fs;
use std::rt::Runtime;
use text_io::input::{InputFault, read_all};
use tree_edits::files::Shelf;
use tree_values::bytes::Bytes;

/// Files by their paths. Nothing is claimed of their bytes.
#[derive(Drop)]
pub(crate) struct SystemShelf<'a, R: Runtime + AllocGlobal> {
    pub rt: &'a R,
}

impl<'a, R: Runtime + AllocGlobal> Shelf for SystemShelf<'a, R> {
    ghost gives = { λ shelf name bytes. Unit {0} };

    fn read(&self, alloc: Global, name: &[u8]) -> Result<Bytes, InputFault> {
        let Ok(path) = std::str::from_utf8(name) else {
            return Err(InputFault::Unreadable);
        };
        let Ok(mut source) = fs::open(self.rt, path) else {
            return Err(InputFault::Unreadable);
        };
        let bytes = read_all(alloc, &mut source)?;
        match Bytes::from_vec(alloc, bytes) {
            Ok(bytes) => Ok(bytes),
            Err(_) => Err(InputFault::NoMemory),
        }
    }
}
