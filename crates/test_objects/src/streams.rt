//! The OLE streams.

use crate::calls::{bytes, kind};
use crate::rows::{spelled, word};
use ole_model::comp_obj::CompObj;
use ole_model::fault::OleFault;
use ole_model::ole_stream::OleStream;
use ole_model::presentation::{Presentation, lines};
use std::alloc::{AllocError, Global};
use std::process::Abort;
use test_marks::marks::{begin, end};
use tree_values::bytes::Bytes;

/// Three words a stream: which, what it is to hold (a user type, lines), and its bytes, or none.
const WRITTEN: &str = "ole . 01000002,00000000,00000000,00000000,00000000
kind 4e6f7465 0100feff,030a0000,ffffffff,07070707070707070707070707070707,05000000,4e6f746500,00000000,00000000
picture 61620a 0c000000,4f6c65436f6e205465787400,04000000,01000000,ffffffff,02000000,00000000,02000000,01000000,03000000,61620a
picture 61620a616263640a0a 0c000000,4f6c65436f6e205465787400,04000000,01000000,ffffffff,02000000,00000000,04000000,03000000,09000000,61620a616263640a0a
picture 6162 .
picture 090a .";

/// Three words a stream: which, its bytes, and what is told of it: that it is read, its user type (a point where it is
/// empty), whether it is text, or its fault.
///
/// Of `\1Ole`: whole; a byte short; linked; with other flags; of another version; with more behind it.
const OLE_READ: &str = "ole 01000002,00000000,00000000,00000000,00000000 read
ole 01000002,00000000,00000000,00000000,000000 Truncated
ole 01000002,01000000,00000000,00000000,00000000 Linked
ole 01000002,00100000,00000000,00000000,00000000 read
ole 01000003,01000000,00000000,00000000,00000000 BadVersion
ole 01000002,00000000,0303030303030303030303030303 read";

/// Of `\1CompObj` as it is written: whole; cut before the second number, in the first, before the closing zero, in the
/// string's size, in the header; with a size past the end; without the zero.
const KIND_READ: &str =
    "kind 0100feff,030a0000,ffffffff,07070707070707070707070707070707,05000000,4e6f746500,00000000,00000000 Note
kind 0100feff,030a0000,ffffffff,07070707070707070707070707070707,05000000,4e6f746500,00000000 Note
kind 0100feff,030a0000,ffffffff,07070707070707070707070707070707,05000000,4e6f746500,000000 Truncated
kind 0100feff,030a0000,ffffffff,07070707070707070707070707070707,05000000,4e6f7465 BadString
kind 0100feff,030a0000,ffffffff,07070707070707070707070707070707,050000 Truncated
kind 0100feff,030a0000,ffffffff,070707070707070707070707070707 Truncated
kind 0100feff,030a0000,ffffffff,07070707070707070707070707070707,ffffffff,4e6f746500,00000000,00000000 BadString
kind 0100feff,030a0000,ffffffff,07070707070707070707070707070707,05000000,4e6f746501,00000000,00000000 BadString";

/// What others write behind the header, which is 28 bytes 5 here: a clipboard format by its number, and one by its
/// name, with what Office writes behind them; empty user types; formats that are cut short or without their zero.
const OTHERS_READ: &str = "other 06000000,536865657400,ffffffff,03000000,00000000,f439b271 Sheet
other 06000000,536865657400,feffffff,03000000 Sheet
other 06000000,536865657400,06000000,426966663800,0e000000 Sheet
other 00000000,00000000 .
other 01000000,00,00000000 .
other 00000000,ffffffff,030000 Truncated
other 00000000,06000000,426966663821 BadString
other 00000000,07000000,426966663800 BadString";

/// Of a picture: as it is written; with other flags, reserved field, width and height, which are free; cut short; for a
/// target device, of another aspect, index or format; of lines that aren't.
const PICTURE_READ: &str =
    "picture 0c000000,4f6c65436f6e205465787400,04000000,01000000,ffffffff,02000000,00000000,02000000,01000000,03000000,61620a text
picture 0c000000,4f6c65436f6e205465787400,04000000,01000000,ffffffff,09090909,09090909,09090909,09090909,03000000,61620a text
picture 0c000000,4f6c65436f6e205465787400,04000000,01000000,ffffffff,02000000,00000000,02000000,01000000,03000000,6162 other
picture 0c000000,4f6c65436f6e205465787400,04000000,01000000,ffffffff,02000000,00000000,02000000,01000000,030000 other
picture 0c000000,4f6c65436f6e205465787400,08000000,01000000,ffffffff,02000000,00000000,02000000,01000000,03000000,61620a other
picture 0c000000,4f6c65436f6e205465787400,04000000,04000000,ffffffff,02000000,00000000,02000000,01000000,03000000,61620a other
picture 0c000000,4f6c65436f6e205465787400,04000000,01000000,00ffffff,02000000,00000000,02000000,01000000,03000000,61620a other
picture 0c000000,586c65436f6e205465787400,04000000,01000000,ffffffff,02000000,00000000,02000000,01000000,03000000,61620a other
picture 0c000000,4f6c65436f6e205465787400,04000000,01000000,ffffffff,02000000,00000000,02000000,01000000,03000000,07620a other";

fn picture_once(alloc: Global, lines: &[u8]) -> Result<Option<Bytes>, AllocError> {
    begin(alloc);
    let picture = Presentation::write(alloc, lines);
    end(alloc);
    picture
}

/// The picture of lines, written again where memory is refused.
fn picture_of(rt: &impl Abort, alloc: Global, lines: &[u8]) -> Option<Bytes> {
    match picture_once(alloc, lines) {
        Ok(picture) => picture,
        Err(_) => picture_once(alloc, lines).expect(rt, "memory"),
    }
}

fn picture_written(rt: &impl Abort, alloc: Global, lines: &[u8]) -> Bytes {
    match picture_of(rt, alloc, lines) {
        Some(picture) => picture,
        None => Bytes::new(alloc),
    }
}

fn written(rt: &impl Abort, alloc: Global, stream: &str, with: &[u8]) -> Bytes {
    match stream {
        "ole" => bytes(rt, alloc, &OleStream.write()),
        "kind" => kind(rt, alloc, with),
        _ => picture_written(rt, alloc, with),
    }
}

/// Whether a stream is written as a row says.
fn is_written(rt: &impl Abort, alloc: Global, row: &str) -> bool {
    let mut words = row.split_whitespace();
    let stream = word(&mut words);
    let with = spelled(rt, alloc, word(&mut words));
    let made = written(rt, alloc, stream, &with);
    made.as_slice() == spelled(rt, alloc, word(&mut words)).as_slice()
}

fn ole_is(stream: &[u8], want: &str) -> bool {
    match OleStream::read(stream) {
        Ok(_) => want == "read",
        Err(fault) => fault.name() == want,
    }
}

fn kind_once(alloc: Global, stream: &[u8]) -> Result<CompObj, OleFault> {
    begin(alloc);
    let kind = CompObj::read(alloc, stream);
    end(alloc);
    kind
}

/// What says of which user type an object is, read again where memory is refused.
fn kind_of(alloc: Global, stream: &[u8]) -> Result<CompObj, OleFault> {
    match kind_once(alloc, stream) {
        Err(OleFault::NoMemory) => kind_once(alloc, stream),
        kind => kind,
    }
}

/// Whether the user type is as wanted, or the fault.
fn kind_is(alloc: Global, stream: &[u8], want: &str) -> bool {
    match kind_of(alloc, stream) {
        Ok(read) => is_user_type(read.user_type.as_slice(), want),
        Err(fault) => fault.name() == want,
    }
}

fn is_user_type(found: &[u8], want: &str) -> bool {
    if want == "." {
        found.is_empty()
    } else {
        found == want.as_bytes()
    }
}

fn other_is(rt: &impl Abort, alloc: Global, behind: &[u8], want: &str) -> bool {
    let mut stream = Vec::from_slice(alloc, &[5; 28]).expect(rt, "memory");
    stream.extend_from_slice(behind).expect(rt, "memory");
    kind_is(alloc, &stream, want)
}

fn shown_once(alloc: Global, stream: &[u8]) -> Result<Presentation, AllocError> {
    begin(alloc);
    let shown = Presentation::read(alloc, stream);
    end(alloc);
    shown
}

/// A picture, read again where memory is refused.
fn shown(rt: &impl Abort, alloc: Global, stream: &[u8]) -> Presentation {
    match shown_once(alloc, stream) {
        Ok(shown) => shown,
        Err(_) => shown_once(alloc, stream).expect(rt, "memory"),
    }
}

/// Whether a picture is the line `ab`, or kept as it is.
fn picture_is(rt: &impl Abort, alloc: Global, stream: &[u8], want: &str) -> bool {
    match shown(rt, alloc, stream) {
        Presentation::Text(lines) => want == "text" && lines.as_slice() == b"ab\n".as_slice(),
        Presentation::Other(bytes) => want == "other" && bytes.as_slice() == stream,
    }
}

/// Whether what is told of a stream is what a row says.
fn is_read(rt: &impl Abort, alloc: Global, row: &str) -> bool {
    let mut words = row.split_whitespace();
    let which = word(&mut words);
    let stream = spelled(rt, alloc, word(&mut words));
    let want = word(&mut words);
    match which {
        "ole" => ole_is(&stream, want),
        "kind" => kind_is(alloc, &stream, want),
        "other" => other_is(rt, alloc, &stream, want),
        _ => picture_is(rt, alloc, &stream, want),
    }
}

/// Stops at a row of a table that isn't read as it says.
fn are_read(rt: &impl Abort, alloc: Global, table: &str) {
    for row in table.split('\n') {
        assert!(rt; is_read(rt, alloc, row), "{row}");
    }
}

/// Whether the lines of a picture are left where they stand.
fn has_lines(stream: &[u8]) -> bool {
    match lines(stream) {
        Some(lines) => lines == b"ab\n".as_slice(),
        None => false,
    }
}

#[test]
fn streams_are_written(rt: HostRuntime) {
    for row in WRITTEN.split('\n') {
        assert!(rt; is_written(&rt, rt.alloc(), row), "{row}");
    }
    let picture = picture_written(&rt, rt.alloc(), b"ab\n");
    assert!(rt; has_lines(picture.as_slice()));
}

#[test]
fn streams_are_read(rt: HostRuntime) {
    are_read(&rt, rt.alloc(), OLE_READ);
    are_read(&rt, rt.alloc(), KIND_READ);
    are_read(&rt, rt.alloc(), OTHERS_READ);
    are_read(&rt, rt.alloc(), PICTURE_READ);
}
