//! Places of faults that are found although something else is wrong before them.

use cfb_header::fault::ChainFault;
use cfb_names::fault::DirFault;
use std::alloc::Global;
use std::process::Abort;
use tell_entries::directory::find_entry;
use tell_entries::place::EntryPlace;
use tell_entries::ways::end_of;
use tell_faults::finding::find_place;
use tell_faults::place::FaultPlace;
use write_described::making::make_file;

/// A file of two streams.
fn file_of(rt: &impl Abort, alloc: Global) -> Vec<u8> {
    let mut text = b"stream A 01\nstream B 02\n".as_slice();
    let mut file = Vec::new(alloc);
    make_file(alloc, &mut text, &mut file).expect(rt, "a file");
    file
}

/// The same with a number in the four bytes at a place.
fn change(file: &mut [u8], at: usize, to: u32) {
    let bytes = to.to_le_bytes();
    for k in 0..4 {
        if let Some(byte) = file.get_mut(at.saturating_add(k)) {
            *byte = bytes[k];
        }
    }
}

/// The link of the directory's chain that has a fault, as the sector that has it and the number that it names.
fn directory_link(alloc: Global, file: &[u8], fault: ChainFault) -> Option<(Option<u32>, u32)> {
    match find_place(alloc, file, fault) {
        Ok(Some(FaultPlace::Directory(link))) => Some((link.from, link.to)),
        _ => None,
    }
}

/// The entry that has a fault of its own.
fn entry_at_fault(alloc: Global, file: &[u8], fault: DirFault) -> Option<u32> {
    match find_entry(alloc, file, fault) {
        Ok(Some(EntryPlace::Entry(way))) => Some(end_of(&way)),
        _ => None,
    }
}

#[test]
fn a_chain_is_followed_over_a_taken_sector(rt: HostRuntime) {
    let mut file = file_of(&rt, rt.alloc());
    // The directory begins at the FAT's own sector, whose entry is no sector's number.
    change(&mut file, 48, 0);
    let crossed = directory_link(rt.alloc(), &file, ChainFault::CrossLinked);
    assert!(rt; crossed == Some((None, 0)), "the FAT's sector");
    let outside = directory_link(rt.alloc(), &file, ChainFault::OutOfFile);
    assert!(rt; outside == Some((Some(0), 0xFFFFFFFD)), "where it leads");
    let back = directory_link(rt.alloc(), &file, ChainFault::Cycle);
    assert!(rt; back.is_none(), "no circle");
}

#[test]
fn a_name_is_found_behind_a_circle(rt: HostRuntime) {
    let mut file = file_of(&rt, rt.alloc());
    // The left link of the first entry leads to itself, and the second one is named `!`.
    change(&mut file, 1024 + 128 + 68, 1);
    change(&mut file, 1024 + 256, 0x21);
    let forbidden = entry_at_fault(rt.alloc(), &file, DirFault::NameForbidden);
    assert!(rt; forbidden == Some(2), "the name");
    let empty = entry_at_fault(rt.alloc(), &file, DirFault::NameEmpty);
    assert!(rt; empty.is_none(), "no empty name");
}
