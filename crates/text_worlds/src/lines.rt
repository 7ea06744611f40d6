//! Texts of events, line by line.

ghost use Rattle.text_worlds.specs.Events.{RefusesEvents, event_of, events_read, may_want};
ghost use Rattle.std.specs.Prelude.{◌≡◌, ◌<◌, ◌^◌, Ok, length, IfErr, IfOk, IsTrue};
ghost use Rattle.text_io.specs.Lines.{is_skipped};

use crate::events::{parse, parse_open};
use crate::forge::parse_forge;
use std::alloc::{AllocError, Global};
use text_io::lines::SyntaxFault;
use text_words::words::Pieces;
use world_model::event::Event;

/// Whether a line says nothing: it is empty, or it begins with `#`.
fn is_skipped(line: &[u8]) -> bool
    ensures { result ≡ is_skipped line.now }
{
    match line {
        [] => true,
        [first, ..] => *first == b'#',
    }
}

/// The event that a line spells.
///
/// Refused for want of memory alone: of a line that spells an event, or of forged bytes, before it is known whether
/// they are a message.
pub fn parse_line(alloc: Global, line: &[u8]) -> Result<Option<Event>, AllocError>
    ensures read { IfOk result (λ event. event ≡ event_of line.now) }
    ensures within { IfErr result (λ _. IsTrue (may_want line.now)) }
{
    match parse_open(alloc, line)? {
        Some(event) => return Ok(Some(event)),
        None => {}
    }
    match parse_forge(alloc, line)? {
        Some(event) => return Ok(Some(event)),
        None => {}
    }
    let event = parse(alloc, line)?;
    Ok(event)
}

/// The events that the lines of a text spell. Empty lines and lines that begin with `#` are skipped.
///
/// Refused: the first line that spells no event (`Bad`), with its number from 1; `NoMemory` with the number of the line
/// at which no memory was left, up to which all lines spell events, but that a forged message there needn't be one.
pub fn parse_events(alloc: Global, text: &[u8]) -> Result<Vec<Event>, (usize, SyntaxFault)>
    requires { length text.now < 2 ^ 32 }
    ensures read { IfOk result (λ events. events_read text.now ≡ Ok events.items) }
    ensures refused { IfErr result (RefusesEvents text.now) }
{
    let mut events = Vec::new(alloc);
    let mut left = Pieces::new(text, b'\n');
    let mut number: usize = 0;
    while let Some(line) = left.next_piece() {
        number += 1;
        if is_skipped(line) {
            continue;
        }
        match parse_line(alloc, line) {
            Ok(Some(event)) => match events.push(event) {
                Ok(()) => {}
                Err(_) => return Err((number, SyntaxFault::NoMemory)),
            },
            Ok(None) => return Err((number, SyntaxFault::Bad)),
            Err(_) => return Err((number, SyntaxFault::NoMemory)),
        }
    }
    Ok(events)
}
