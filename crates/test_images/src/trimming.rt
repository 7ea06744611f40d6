//! What an image keeps of a file's bytes.

use crate::trees::tree_of;
use std::alloc::Global;
use std::process::Abort;
use store_images::image::Image;
use write_files::write::write_file;

/// So many bytes of a file of five blocks, whose FAT has entries for 128 sectors: bytes 9 stand behind it.
fn file_of(rt: &impl Abort, alloc: Global, len: usize) -> Vec<u8> {
    let tree = tree_of(rt, alloc, &[("A", 3, 1)]);
    let mut file = write_file(alloc, &tree).expect(rt, "a file");
    file.resize(len, 9).expect(rt, "memory");
    file
}

/// An image of so many bytes of that file has so many, zeros behind those that it keeps.
fn check(rt: &impl Abort, alloc: Global, len: usize, kept: usize) {
    let image = Image::open(alloc, file_of(rt, alloc, len)).expect(rt, "an image");
    let mut wanted = file_of(rt, alloc, len.min(kept));
    wanted.resize(kept, 0).expect(rt, "memory");
    assert!(rt; image.bytes() == wanted.as_slice());
}

#[test]
fn whole_sectors_are_kept(rt: HostRuntime) {
    check(&rt, rt.alloc(), 2560, 2560);
}

#[test]
fn bytes_behind_the_last_sector_with_an_entry_are_dropped(rt: HostRuntime) {
    check(&rt, rt.alloc(), 66_560, 66_048);
}

#[test]
fn a_part_sector_is_filled_with_zeros(rt: HostRuntime) {
    check(&rt, rt.alloc(), 2460, 2560);
    check(&rt, rt.alloc(), 2561, 3072);
}

#[test]
fn a_part_sector_with_no_entry_is_dropped(rt: HostRuntime) {
    check(&rt, rt.alloc(), 66_049, 66_048);
    check(&rt, rt.alloc(), 66_047, 66_048);
}
