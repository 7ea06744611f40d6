//! Texts of moments.

use std::alloc::Global;
use text_io::lines::SyntaxFault;
use text_worlds::moments::parse_moments;
use world_model::moment::Moment;

/// The most bytes that these texts have.
const MOST: usize = 1000;

/// The moments of a short text, or the number of the line that spells none; 0 where no memory was left.
fn read(alloc: Global, text: &[u8]) -> Result<Vec<Moment>, usize> {
    if text.len() > MOST {
        return Err(0);
    }
    match parse_moments(alloc, text) {
        Ok(moments) => Ok(moments),
        Err((line, SyntaxFault::Bad)) => Err(line),
        Err((_, SyntaxFault::NoMemory)) => Err(0),
    }
}

/// Whether moments are a stop of these frames alone.
fn are_stop(moments: &[Moment], frames: &[u32]) -> bool {
    match moments {
        [Moment::Stop(kept)] => kept.as_slice() == frames,
        _ => false,
    }
}

/// Whether a text spells a stop of these frames alone.
fn is_stop(alloc: Global, text: &[u8], frames: &[u32]) -> bool {
    match read(alloc, text) {
        Ok(moments) => are_stop(&moments, frames),
        Err(_) => false,
    }
}

/// The number of the line of a text that spells no moment, 0 where there is none.
fn bad_line(alloc: Global, text: &[u8]) -> usize {
    match read(alloc, text) {
        Ok(_) => 0,
        Err(line) => line,
    }
}

/// How many moments a text spells.
fn count(alloc: Global, text: &[u8]) -> usize {
    match read(alloc, text) {
        Ok(moments) => moments.len(),
        Err(_) => 0,
    }
}

#[test]
fn stops_are_spelled(rt: HostRuntime) {
    assert!(rt; is_stop(rt.alloc(), b"stop", &[]));
    assert!(rt; is_stop(rt.alloc(), b"stop 1 2", &[1, 2]));
    assert!(rt; is_stop(rt.alloc(), b"stop 0", &[0]));
    assert!(rt; is_stop(rt.alloc(), b"# one frame, twice\n\nstop 3 3\n", &[3, 3]));
}

#[test]
fn stops_stand_among_events(rt: HostRuntime) {
    assert!(rt; count(rt.alloc(), b"new a 40 10\nstop 1\nopen a 40 10\nstop") == 4);
}

#[test]
fn lines_that_spell_no_stop_are_bad(rt: HostRuntime) {
    assert!(rt; bad_line(rt.alloc(), b"stop x") == 1);
    assert!(rt; bad_line(rt.alloc(), b"stop ") == 1);
    assert!(rt; bad_line(rt.alloc(), b"stop 1  2") == 1);
    assert!(rt; bad_line(rt.alloc(), b"stop 1 02") == 1);
    assert!(rt; bad_line(rt.alloc(), b"start\n\nstop 1 4294967296") == 3);
    assert!(rt; bad_line(rt.alloc(), b"Stop") == 1);
}
