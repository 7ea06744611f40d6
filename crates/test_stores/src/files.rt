//! The disk over two files.

use crate::folder::Folder;
use crate::wide::bytes_of;
use std::alloc::Global;
use std::fs;
use store_core::store::Store;
use store_disk::file_disk::FileDisk;
use store_disk::opening::{find, find_filled, open};
use store_disk::system_files::SystemFiles;
use store_disk::system_names::SystemNames;
use store_model::fault::StoreFault;

/// Whether the files of a name give these bytes, once a document is committed if there is one.
fn opens_to(rt: &HostRuntime, name: &str, new: Option<&[u8]>, want: &[u8]) -> bool {
    match open(&mut SystemNames::new(rt), name) {
        Ok(disk) => has(rt.alloc(), disk, new, want),
        Err(_) => false,
    }
}

fn has(alloc: Global, disk: FileDisk<SystemFiles>, new: Option<&[u8]>, want: &[u8]) -> bool {
    match Store::open(alloc, disk) {
        Ok(store) => tells(store, new, want),
        Err(_) => false,
    }
}

fn tells(mut store: Store<FileDisk<SystemFiles>>, new: Option<&[u8]>, want: &[u8]) -> bool {
    let is_told = is_committed(&mut store, new) && is_current(&mut store, want);
    is_told && store.into_disk().failures() == 0
}

fn is_committed(store: &mut Store<FileDisk<SystemFiles>>, new: Option<&[u8]>) -> bool {
    match new {
        Some(bytes) => store.commit(bytes).is_ok(),
        None => true,
    }
}

fn is_current(store: &mut Store<FileDisk<SystemFiles>>, want: &[u8]) -> bool {
    let is_longer = match want.len() {
        0 => true,
        long => matches!(
            store.current_within(long as u64 - 1),
            Err(StoreFault::TooBig)
        ),
    };
    match store.current_within(want.len() as u64) {
        Ok(found) => is_longer && found.as_slice() == want,
        Err(_) => false,
    }
}

fn is_file(rt: &HostRuntime, name: &str, want: &[u8]) -> bool {
    match fs::read(rt, name) {
        Ok(found) => found.as_slice() == want,
        Err(_) => false,
    }
}

/// Whether a document of many bytes, and a short one over it, are there when they are opened again.
fn are_committed(rt: &HostRuntime, name: &str, long: &[u8]) -> bool {
    opens_to(rt, name, None, b"")
        && opens_to(rt, name, Some(long), long)
        && opens_to(rt, name, None, long)
        && opens_to(rt, name, Some(b"short"), b"short")
        && is_file(rt, name, b"short")
}

/// Whether a journal has one block, for a document of five bytes.
fn is_short_journal(rt: &HostRuntime, name: &str) -> bool {
    match fs::read(rt, name) {
        Ok(found) => {
            found.len() == 529
                && found.starts_with(b"\0\x05\0\0\0\0\0\0\x01\x01\0\0\0\0\0\0\0short")
        }
        Err(_) => false,
    }
}

/// Whether a journal of a whole document that a crash left open is carried out.
fn is_carried_out(rt: &HostRuntime, name: &str, journal: &str) -> bool {
    fs::write(rt, journal, b"\x01\x03\0\0\0\0\0\0\0new").is_ok()
        && opens_to(rt, name, None, b"new")
        && is_file(rt, name, b"new")
}

/// Opens the gate of a journal.
fn open_gate(rt: &HostRuntime, journal: &str) -> bool {
    match fs::read(rt, journal) {
        Ok(mut found) => {
            if let Some(gate) = found.first_mut() {
                *gate = 1;
            }
            fs::write(rt, journal, &found).is_ok()
        }
        Err(_) => false,
    }
}

/// Whether the journal of a commit is carried out where its gate is opened again and the document is what it was
/// before.
fn are_blocks_carried_out(rt: &HostRuntime, name: &str, journal: &str, long: &[u8]) -> bool {
    opens_to(rt, name, Some(b"before"), b"before")
        && opens_to(rt, name, Some(long), long)
        && open_gate(rt, journal)
        && fs::write(rt, name, b"before").is_ok()
        && opens_to(rt, name, None, long)
        && is_file(rt, name, long)
}

/// Whether a name without files is found as none, and nothing is made.
fn is_found_as_none(rt: &HostRuntime, name: &str) -> bool {
    match find(&mut SystemNames::new(rt), name) {
        Ok(None) => fs::symlink_metadata(rt, name).is_err(),
        _ => false,
    }
}

/// Whether a document is found, and isn't opened a second time as long as it is open.
fn is_found_and_locked(rt: &HostRuntime, name: &str, want: &[u8]) -> bool {
    match find_filled(&mut SystemNames::new(rt), name) {
        Ok(Some(disk)) => {
            let again = open(&mut SystemNames::new(rt), name);
            let is_locked = matches!(again, Err(StoreFault::Device));
            is_locked && has(rt.alloc(), disk, None, want)
        }
        _ => false,
    }
}

#[test]
fn files_are_made_committed_and_opened_again(rt: HostRuntime) {
    let folder = Folder::new(&rt).expect(&rt, "a folder");
    let (name, journal) = (folder.name(), folder.journal());
    let long = bytes_of(rt.alloc(), 200_000, 0).expect(&rt, "memory");
    assert!(rt; is_found_as_none(&rt, name));
    assert!(rt; are_committed(&rt, name, &long));
    assert!(rt; is_short_journal(&rt, journal));
    assert!(rt; is_found_and_locked(&rt, name, b"short"));
    assert!(rt; is_carried_out(&rt, name, journal));
    assert!(rt; are_blocks_carried_out(&rt, name, journal, &long));
    // A folder isn't opened.
    assert!(rt; open(&mut SystemNames::new(&rt), folder.path()).is_err());
    assert!(rt; folder.is_removed(&rt));
}
