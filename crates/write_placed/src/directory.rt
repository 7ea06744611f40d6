//! The directory of a file whose streams were given their sectors.

use crate::bytes::{MINI, SECTOR, set_number};
use crate::parts::{MINI_STREAM, Part, STREAMS, sectors_of};
use crate::tables::at_or_end;
use std::alloc::{AllocError, Global};
use tree_storage::storage::Storage;
use write_files::front::front_of;
use write_files::needs::count;
use write_files::sent_streams::send_front;

/// The directory of a tree with this root as it is where the file is laid out anew. None of a tree that is too big.
pub(crate) fn directory_anew(alloc: Global, root: &Storage) -> Result<Option<Vec<u8>>, AllocError> {
    let Ok(counts) = count(root) else {
        return Ok(None);
    };
    let front = front_of(alloc, root, counts)?;
    let mut bytes = Vec::new(alloc);
    let Ok(waiting) = send_front(&mut bytes, front, root, counts) else {
        return Err(AllocError);
    };
    bytes.extend_from_slice(&waiting)?;
    let from = SECTOR * (1 + counts.own_sectors() as usize);
    let mut directory = Vec::from_slice(alloc, &bytes[from.min(bytes.len())..])?;
    directory.truncate(SECTOR * counts.directory_sectors() as usize);
    Ok(Some(directory))
}

/// Sets in the entries of a directory where the streams begin, and the mini stream with so many mini sectors.
pub(crate) fn set_firsts(entries: &mut [u8], parts: &[Part<'_>], minis: usize) {
    set_number(entries, 29, at_or_end(sectors_of(parts, MINI_STREAM), 0));
    set_number(
        entries,
        30,
        MINI.saturating_mul(minis).min(u32::MAX as usize) as u32,
    );
    let mut stream = STREAMS;
    for id in 0..entries.len() / 128 {
        if entries[128 * id + 66] == 2 {
            let first = at_or_end(sectors_of(parts, stream), 0);
            set_number(entries, 32 * id + 29, first);
            stream = stream.saturating_add(1);
        }
    }
}
