//! Listings as they are asked for.

use crate::calls::{JSON, LINES, LONG};
use std::alloc::Global;
use std::process::Abort;
use tell_forms::asked_listings::Listing;
use tell_lists::listing::list_as;
use write_described::making::make_file;

fn one_stream(rt: &impl Abort, alloc: Global) -> Vec<u8> {
    let mut text = b"stream A 010203\n".as_slice();
    let mut file = Vec::new(alloc);
    make_file(alloc, &mut text, &mut file).expect(rt, "a file");
    file
}

/// Whether this is written of a file.
fn is_listed(alloc: Global, listing: Listing, file: &[u8], want: &[u8]) -> bool {
    let mut source = file;
    let mut text = Vec::new(alloc);
    match list_as(alloc, listing, &mut source, &mut text) {
        Ok(()) => text.as_slice() == want,
        Err(_) => false,
    }
}

#[test]
fn a_file_is_listed_as_asked(rt: HostRuntime) {
    let file = one_stream(&rt, rt.alloc());
    let lines = Listing::of(false, false);
    assert!(rt; is_listed(rt.alloc(), lines, &file, LINES), "lines");
    let json = Listing::of(true, false);
    assert!(rt; is_listed(rt.alloc(), json, &file, JSON), "a value");
    let long = Listing::of(false, true);
    assert!(rt; is_listed(rt.alloc(), long, &file, LONG), "columns");
}
