//! A file's map.

use crate::trips::file_of;
use std::alloc::Global;
use tell_files::mapping::map_file;

/// Streams of 5,000 and of 2 bytes, and two storages.
const MAP: &[u8] =
    b"         0  FDDMmssssssssse\n\nF  FAT                          1\nX  DIFAT                        0\nD  directory                    2\nM  mini FAT                     1\nm  mini stream                  1\ns  streams                      9\ne  ends of streams              1\n.  free                         0\n-  past the FAT                 0\n\nbytes free 0, behind the ends of streams 630, past the FAT 0\n";

fn is_mapped(alloc: Global, file: &[u8]) -> bool {
    let mut source = file;
    let mut text = Vec::new(alloc);
    match map_file(alloc, &mut source, &mut text) {
        Ok(()) => text.as_slice() == MAP,
        Err(_) => false,
    }
}

#[test]
fn a_file_is_mapped(rt: HostRuntime) {
    let file = file_of(&rt, rt.alloc());
    assert!(rt; is_mapped(rt.alloc(), &file), "a map");
}
