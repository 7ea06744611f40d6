//! Words, numbers and streams, as the kinds read and write them.

use crate::texts::halves;
use cfb_names::name::{Name, named};
use object_core::{Streams, picture, sole_stream, stream_names};
use std::alloc::Global;
use std::process::Abort;
use text_words::words::{Pieces, cut, number};

fn is_found(streams: &Streams, name: &Name, bytes: &[u8]) -> bool {
    match sole_stream::bytes(streams, name) {
        Some(found) => found == bytes,
        None => false,
    }
}

fn is_missed(streams: &Streams, name: &Name) -> bool {
    sole_stream::bytes(streams, name).is_none()
}

#[test]
fn a_sole_stream_is_found(rt: HostRuntime) {
    let bytes = Vec::from_slice(rt.alloc(), b"ab").expect(&rt, "memory");
    let streams = sole_stream::streams(rt.alloc(), stream_names::note(), bytes).expect(
        &rt, "memory",
    );
    let name = named(b"TEXT").expect(&rt, "a name");
    assert!(rt; is_found(&streams, &name, b"ab"));
    assert!(rt; is_missed(&streams, &stream_names::table()));
    assert!(rt; is_missed(&Streams::new(rt.alloc()), &stream_names::note()));
}

/// Whether the pieces of a text between spaces, each behind a `+`, are these.
fn are_pieces(rt: &impl Abort, alloc: Global, text: &str, want: &[u8]) -> bool {
    let mut told = Vec::new(alloc);
    let mut pieces = Pieces::new(text.as_bytes(), b' ');
    for _ in 0..9 {
        match pieces.next_piece() {
            Some(piece) => push(rt, &mut told, piece),
            None => {}
        }
    }
    told.as_slice() == want
}

fn push(rt: &impl Abort, told: &mut Vec<u8>, piece: &[u8]) {
    told.push(b'+').expect(rt, "memory");
    told.extend_from_slice(piece).expect(rt, "memory");
}

/// Whether the two sides of the first space, each behind a `+`, or one of them where there is none, are these.
fn are_sides(rt: &impl Abort, alloc: Global, text: &str, want: &[u8]) -> bool {
    let mut told = Vec::new(alloc);
    let (first, rest) = cut(text.as_bytes(), b' ');
    push(rt, &mut told, first);
    match rest {
        Some(rest) => push(rt, &mut told, rest),
        None => {}
    }
    told.as_slice() == want
}

#[test]
fn words_are_parted(rt: HostRuntime) {
    assert!(rt; are_sides(&rt, rt.alloc(), "i 0 a", b"+i+0 a"));
    assert!(rt; are_sides(&rt, rt.alloc(), "i", b"+i"));
    assert!(rt; are_pieces(&rt, rt.alloc(), "a  b", b"+a++b"));
}

/// Whether a word is a number of up to 32 bits without leading zeros, as std reads it too, or none.
fn is_read(row: &str) -> bool {
    let (want, word) = halves(row, ":");
    let found = number(word.as_bytes());
    if want == "none" {
        found.is_none()
    } else {
        found.is_some() && found == word.parse::<u32>().ok()
    }
}

#[test]
fn numbers_have_no_leading_zeros(rt: HostRuntime) {
    let rows =
        "number:0|number:10|number:4294967295|none:|none:00|none:01|none:4294967296|none:1a|none:-1|none: 1";
    for row in rows.split('|') {
        assert!(rt; is_read(row), "{row}");
    }
}

#[test]
fn lines_of_pictures_are_ended(rt: HostRuntime) {
    let mut lines = Vec::new(rt.alloc());
    picture::push_line(&mut lines, b"ab").expect(&rt, "memory");
    picture::push_line(&mut lines, b"").expect(&rt, "memory");
    assert!(rt; lines.as_slice() == b"ab\n\n".as_slice());
}
