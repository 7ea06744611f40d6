//! The calls that other languages have, on the happy path and without room.

use program_calls::calls::{clean, fault_name, get, lines, list, make, make_line};
use program_calls::checking::check;
use program_calls::editing::{edit, edit_line};
use program_calls::numbers::{BAD_PATH, DONE, NO_ROOM};
use std::alloc::Global;
use tell_checks::telling::Form;
use tell_forms::asked_listings::Listing;

/// Which call is made.
#[derive(Clone, Copy)]
enum Call {
    Lines,
    Json,
    Long,
    Make,
    Clean,
    Get,
    Edit,
}

fn called(alloc: Global, call: Call, input: &[u8], out: &mut [u8], needed: &mut usize) -> u32 {
    match call {
        Call::Lines => lines(alloc, input, out, needed),
        Call::Json => list(alloc, Listing::Json, input, out, needed),
        Call::Long => list(alloc, Listing::Long, input, out, needed),
        Call::Make => make(alloc, input, out, needed),
        Call::Clean => clean(alloc, input, out, needed),
        Call::Get => get(alloc, input, b"A".as_slice(), out, needed),
        Call::Edit => edit(alloc, input, b"stream A 040506\n".as_slice(), out, needed),
    }
}

/// Whether a call answers these bytes, and without room for them tells how many they are.
fn gives(alloc: Global, call: Call, input: &[u8], want: &[u8]) -> bool {
    let mut out = [0; 4096];
    let mut needed = 0;
    let mut none = [0; 0];
    if called(alloc, call, input, &mut none, &mut needed) != NO_ROOM || needed != want.len() {
        return false;
    }
    called(alloc, call, input, &mut out, &mut needed) == DONE && out.get(..needed) == Some(want)
}

/// Whether an edit puts other bytes into the stream of a file.
fn is_edited(alloc: Global, file: &[u8]) -> bool {
    let mut edited = [0; 2560];
    let mut needed = 0;
    called(alloc, Call::Edit, file, &mut edited, &mut needed) == DONE
        && gives(alloc, Call::Get, &edited, b"\x04\x05\x06".as_slice())
}

/// Whether a description is refused for its second line.
fn is_refused_by_line(alloc: Global, description: &[u8]) -> bool {
    let mut out = [0; 16];
    let mut needed = 0;
    let mut line = 0;
    make_line(alloc, description, &mut out, &mut needed, &mut line) > NO_ROOM && line == 2
}

/// Whether an edit of a file is refused for its second line.
fn is_edit_refused_by_line(alloc: Global, file: &[u8], text: &[u8]) -> bool {
    let mut out = [0; 16];
    let mut needed = 0;
    let mut line = 0;
    edit_line(alloc, file, text, &mut out, &mut needed, &mut line) > NO_ROOM && line == 2
}

/// Whether a file is told to be sound, and its front to be at fault.
fn is_checked(alloc: Global, file: &[u8]) -> bool {
    let mut out = [0; 64];
    let mut needed = 0;
    let mut fault = 0;
    let done = check(alloc, file, Form::Line, &mut out, &mut needed, &mut fault);
    if done != DONE || fault != 0 || out.get(..needed) != Some(b"ok\n".as_slice()) {
        return false;
    }
    let front = &file[..file.len().min(100)];
    check(alloc, front, Form::Line, &mut out, &mut needed, &mut fault) == DONE
        && is_named(fault, b"Truncated".as_slice())
}

fn is_named(number: u32, want: &[u8]) -> bool {
    let mut out = [0; 16];
    let mut needed = 0;
    fault_name(number, &mut out, &mut needed) == DONE && out.get(..needed) == Some(want)
}

pub(crate) const LINES: &[u8] = b"root 00000000-0000-0000-0000-000000000000\nstream A 3\n";

pub(crate) const JSON: &[u8] =
    b"[{\"type\":\"root\",\"path\":\"\",\"class\":\"00000000-0000-0000-0000-000000000000\",\"state\":0},{\"type\":\"stream\",\"path\":\"A\",\"size\":3,\"first\":0}]\n";

pub(crate) const LONG: &[u8] =
    b"kind         size  path\nroot               /\nstream          3  A\n";

#[test]
fn calls_answer(rt: HostRuntime) {
    let mut file = [0; 2560];
    let mut needed = 0;
    let done = called(
        rt.alloc(),
        Call::Make,
        b"stream A 010203\n".as_slice(),
        &mut file,
        &mut needed,
    );
    assert!(rt; done == DONE && needed == 2560, "a file");
    assert!(rt; gives(rt.alloc(), Call::Lines, &file, LINES), "lines");
    assert!(rt; gives(rt.alloc(), Call::Json, &file, JSON), "json");
    assert!(rt; gives(rt.alloc(), Call::Long, &file, LONG), "long");
    assert!(rt; gives(rt.alloc(), Call::Clean, &file, &file), "clean");
    assert!(rt;
        gives(rt.alloc(), Call::Get, &file, b"\x01\x02\x03".as_slice()),
        "get"
    );
    assert!(rt; is_edited(rt.alloc(), &file), "edit");
    assert!(rt;
        is_refused_by_line(rt.alloc(), b"storage A\nstream A -\n".as_slice()),
        "a line"
    );
    assert!(rt;
        is_edit_refused_by_line(rt.alloc(), &file, b"remove A\nfile A name\n".as_slice()),
        "a line of an edit"
    );
    assert!(rt; is_checked(rt.alloc(), &file), "a check");
    assert!(rt; is_named(BAD_PATH, b"BadPath".as_slice()), "a name");
}
