//! Checks of a file that is sound, and of the same one once bytes of it are changed.

use cfb_header::fault::ChainFault;
use std::alloc::Global;
use std::process::Abort;
use tell_chains::chains::find_stream;
use tell_checks::telling::Form;
use tell_entries::ways::end_of;
use tell_faults::finding::find_place;
use tell_faults::place::{FaultPlace, Link};
use tell_files::checking::check_file;
use write_described::making::make_file;

/// A file of one stream.
fn file_of(rt: &impl Abort, alloc: Global) -> Vec<u8> {
    let mut text = b"stream A 0102\n".as_slice();
    let mut file = Vec::new(alloc);
    make_file(alloc, &mut text, &mut file).expect(rt, "a file");
    file
}

/// The same with another byte at a place.
fn change(file: &mut [u8], at: usize, to: u8) {
    if let Some(byte) = file.get_mut(at) {
        *byte = to;
    }
}

/// Whether a check of a file writes this in a form, and refuses it where it isn't sound.
fn writes(alloc: Global, file: &[u8], form: Form<'_>, is_sound: bool, want: &[u8]) -> bool {
    let mut source = file;
    let mut text = Vec::new(alloc);
    check_file(alloc, &mut source, form, &mut text).is_ok() == is_sound && text.as_slice() == want
}

/// Whether a link leads from a sector, or from where a chain begins, to a number.
fn leads(link: Link, from: Option<u32>, to: u32) -> bool {
    link.from == from && link.to == to
}

/// Whether the directory begins outside the file.
fn begins_outside(alloc: Global, file: &[u8], to: u32) -> bool {
    match find_place(alloc, file, ChainFault::OutOfFile) {
        Ok(Some(FaultPlace::Directory(link))) => leads(link, None, to),
        _ => false,
    }
}

/// The mini sector at which the chain of the one stream of a file comes back to itself, which lies in mini sectors.
fn comes_back(alloc: Global, file: &[u8], n: u32) -> bool {
    match find_stream(alloc, file, ChainFault::Cycle) {
        Ok(Some(place)) => {
            place.is_mini && end_of(&place.way) == 1 && leads(place.link, Some(n), n)
        }
        _ => false,
    }
}

#[test]
fn a_file_is_checked(rt: HostRuntime) {
    let mut file = file_of(&rt, rt.alloc());
    assert!(rt;
        writes(rt.alloc(), &file, Form::Line, true, b"ok\n".as_slice()),
        "a sound file"
    );
    assert!(rt;
        writes(
            rt.alloc(),
            &file,
            Form::Json,
            true,
            b"{\"ok\":true}\n".as_slice()
        ),
        "a sound file, as JSON"
    );
    change(&mut file, 48, 99);
    assert!(rt; begins_outside(rt.alloc(), &file, 99), "the place");
    let want = b"OutOfFile in the directory, which begins at sector 99, at byte 48\n".as_slice();
    assert!(rt;
        writes(rt.alloc(), &file, Form::Line, false, want),
        "a directory outside the file"
    );
    let want =
        b"{\"ok\":false,\"fault\":\"OutOfFile\",\"part\":\"directory\",\"sector\":null,\"to\":99,\"entry\":null,\"path\":null,\"byte\":48,\"other\":null}\n".as_slice();
    assert!(rt;
        writes(rt.alloc(), &file, Form::Json, false, want),
        "a directory outside the file, as JSON"
    );
}

#[test]
fn an_entry_is_told(rt: HostRuntime) {
    let mut file = file_of(&rt, rt.alloc());
    change(&mut file, 1216, 2);
    let want = b"NameEmpty in entry 1, at byte 1152\n".as_slice();
    assert!(rt;
        writes(rt.alloc(), &file, Form::Line, false, want),
        "a name"
    );
    change(&mut file, 1216, 4);
    change(&mut file, 1220, 1);
    change(&mut file, 1221, 0);
    change(&mut file, 1222, 0);
    change(&mut file, 1223, 0);
    let want = b"TreeCycle in entry 0, at byte 1024\n".as_slice();
    assert!(rt;
        writes(rt.alloc(), &file, Form::Line, false, want),
        "links in a circle"
    );
}

#[test]
fn a_stream_is_told(rt: HostRuntime) {
    let mut file = file_of(&rt, rt.alloc());
    change(&mut file, 1536, 0);
    change(&mut file, 1537, 0);
    change(&mut file, 1538, 0);
    change(&mut file, 1539, 0);
    assert!(rt; comes_back(rt.alloc(), &file, 0), "the place");
    let want =
        b"Cycle in the stream of entry 1, A, whose mini sector 0 leads to 0, at byte 1536\n".as_slice();
    assert!(rt;
        writes(rt.alloc(), &file, Form::Line, false, want),
        "a chain in a circle"
    );
    let want =
        b"{\"ok\":false,\"fault\":\"Cycle\",\"part\":\"short_stream\",\"sector\":0,\"to\":0,\"entry\":1,\"path\":\"A\",\"byte\":1536,\"other\":null}\n".as_slice();
    assert!(rt;
        writes(rt.alloc(), &file, Form::Json, false, want),
        "a chain in a circle, as JSON"
    );
}
