//! Lines of events.

ghost use Rattle.text_worlds.specs.Events.{activation_read, area_of, close_read, commit_named, edit_read, end_named};
ghost use Rattle.text_worlds.specs.Events.{event_named, event_read, insert_read, is_file_name, kind_read, new_read};
ghost use Rattle.text_worlds.specs.Events.{numbered_word, numbers_named, object_named, open_in, open_named, open_read};
ghost use Rattle.text_worlds.specs.Events.{option_read, outcome_read, pair_read, resolve_read, save_as_read};
ghost use Rattle.text_worlds.specs.Events.{short_read, signed_read, sized_read, sole_number, sole_server, takes_memory};
ghost use Rattle.text_worlds.specs.Events.{verb_read};
ghost use Rattle.text_words.specs.Words.{pieces, words};
ghost use Rattle.std.specs.List.{list_all};
ghost use Rattle.std.specs.Option.{option_map};
ghost use Rattle.std.specs.Str.{bytes_eq};
ghost use Rattle.std.specs.Prelude.{◌≡◌, [], IfErr, IfOk, IsSome, IsTrue};
ghost use Rattle.text_spelling.specs.Words.{is_visible};

use container_model::command::{Command, ObjectKind};
use object_state::CloseOption;
use std::alloc::{AllocError, Global};
use text_spelling::words::is_visible;
use text_words::words::{Pieces, cut, number};
use tree_streams::area::Area;
use tree_values::bytes::Bytes;
use world_model::event::Event;

/// The most characters that the name of a file has.
const NAME_SIZE: usize = 64;

/// Whether a word is this one.
pub(crate) fn is_word(word: &[u8], other: &[u8]) -> bool
    ensures { result ≡ bytes_eq word.now other.now }
{
    word == other
}

/// The file to be opened that a line spells. Memory is taken for a line that spells one.
#[tactic(auto, using(crate::proofs::Behind::open_alone))]
pub(crate) fn parse_open(alloc: Global, line: &[u8]) -> Result<Option<Event>, AllocError>
    ensures read { IfOk result (λ event. event ≡ open_in (words line.now)) }
    ensures within { IfErr result (λ _. IsSome (open_in (words line.now))) }
{
    match cut(line, b' ') {
        (name, Some(rest)) => parse_open_with(alloc, name, rest),
        (_, None) => Ok(None),
    }
}

/// The file to be opened that a name and what stands behind its space spell.
fn parse_open_with(alloc: Global, name: &[u8], rest: &[u8]) -> Result<Option<Event>, AllocError>
    ensures read { IfOk result (λ event. event ≡ open_named name.now (words rest.now)) }
    ensures within { IfErr result (λ _. IsSome (open_named name.now (words rest.now))) }
{
    if is_word(name, b"open") {
        opened_frame(alloc, rest)
    } else {
        Ok(None)
    }
}

/// The event that a line spells, but for a file that is opened and a message that is forged.
///
/// Refused for want of memory alone, which is taken for a new frame, for another name of one, and for an edit.
pub fn parse(alloc: Global, line: &[u8]) -> Result<Option<Event>, AllocError>
    ensures read { IfOk result (λ event. event ≡ event_read line.now) }
    ensures within { IfErr result (λ _. IsTrue (takes_memory (event_read line.now))) }
{
    match cut(line, b' ') {
        (name, Some(rest)) => parse_with(alloc, name, rest),
        (name, None) => Ok(parse_alone(name)),
    }
}

/// The event that a word alone spells.
fn parse_alone(name: &[u8]) -> Option<Event>
    ensures { result ≡ event_named name.now [] }
{
    if is_word(name, b"session") {
        Some(Event::Command(Command::Session))
    } else if is_word(name, b"start") {
        Some(Event::Command(Command::Start))
    } else {
        None
    }
}

/// The event that a name and what stands behind its space spell.
#[tactic(auto, using(crate::proofs::Behind::readings))]
fn parse_with(alloc: Global, name: &[u8], rest: &[u8]) -> Result<Option<Event>, AllocError>
    ensures read { IfOk result (λ event. event ≡ event_named name.now (words rest.now)) }
    ensures within { IfErr result (λ _. IsTrue (takes_memory (event_named name.now (words rest.now)))) }
{
    if is_word(name, b"session") {
        Ok(None)
    } else if is_word(name, b"start") {
        Ok(None)
    } else if is_word(name, b"new") {
        new_frame(alloc, rest)
    } else if is_word(name, b"saveas") {
        save_as(alloc, rest)
    } else if is_word(name, b"edit") {
        edit(alloc, rest)
    } else {
        Ok(parse_numbers(name, rest))
    }
}

/// The event that a name and the numbers behind its space spell.
fn parse_numbers(name: &[u8], rest: &[u8]) -> Option<Event>
    ensures { result ≡ numbers_named name.now (words rest.now) }
{
    if is_word(name, b"insert") {
        insert(rest)
    } else if is_word(name, b"run") {
        let (object, inc) = two_numbers(rest, b' ')?;
        Some(Event::Command(Command::Run(object, inc)))
    } else if is_word(name, b"save") {
        Some(Event::Command(Command::Save(sole_number(rest)?)))
    } else if is_word(name, b"deliver") {
        Some(Event::Deliver(sole_number(rest)?))
    } else {
        parse_object(name, rest)
    }
}

/// What is done with an object, or the end of something, that a name and what stands behind its space spell.
fn parse_object(name: &[u8], rest: &[u8]) -> Option<Event>
    ensures { result ≡ object_named name.now (words rest.now) }
{
    if is_word(name, b"delete") {
        Some(Event::Command(Command::Delete(sole_number(rest)?)))
    } else if is_word(name, b"close") {
        close(rest)
    } else if is_word(name, b"verb") {
        verb(rest)
    } else if is_word(name, b"scribble") {
        let ((session, inc), act) = activation(rest)?;
        Some(Event::Scribble(session, inc, act))
    } else if is_word(name, b"ask") {
        let ((session, inc), act) = activation(rest)?;
        Some(Event::Ask(session, inc, act))
    } else {
        parse_end(name, rest)
    }
}

/// The end of a server, or what comes of a commit, that a name and what stands behind its space spell.
fn parse_end(name: &[u8], rest: &[u8]) -> Option<Event>
    ensures { result ≡ end_named name.now (words rest.now) }
{
    if is_word(name, b"crash") {
        let (session, inc) = sole_server(rest)?;
        Some(Event::Crash(session, inc))
    } else if is_word(name, b"reap") {
        Some(Event::Reap(sole_number(rest)?))
    } else if is_word(name, b"kill") {
        Some(Event::Command(Command::Kill(sole_number(rest)?)))
    } else {
        parse_commit(name, rest)
    }
}

/// What comes of a commit, that a name and what stands behind its space spell.
fn parse_commit(name: &[u8], rest: &[u8]) -> Option<Event>
    ensures { result ≡ commit_named name.now (words rest.now) }
{
    if is_word(name, b"done") {
        Some(Event::Done(sole_number(rest)?))
    } else if is_word(name, b"fail") {
        Some(Event::Fail(sole_number(rest)?))
    } else if is_word(name, b"resolve") {
        resolve(rest)
    } else {
        None
    }
}

/// A number that stands alone.
fn sole_number(rest: &[u8]) -> Option<u32>
    ensures { result ≡ sole_number (words rest.now) }
{
    let mut words = Pieces::new(rest, b' ');
    let (Some(word), None) = (words.next_piece(), words.next_piece()) else {
        return None;
    };
    number(word)
}

/// Two numbers that stand alone, with this byte between them.
fn two_numbers(rest: &[u8], between: u8) -> Option<(u32, u32)>
    ensures { result ≡ pair_read (pieces between rest.now) }
{
    let mut words = Pieces::new(rest, between);
    let (Some(first), Some(second), None) = (
        words.next_piece(),
        words.next_piece(),
        words.next_piece(),
    ) else {
        return None;
    };
    Some((number(first)?, number(second)?))
}

/// A server that stands alone, by its session and its incarnation.
fn sole_server(rest: &[u8]) -> Option<(u32, u32)>
    ensures { result ≡ sole_server (words rest.now) }
{
    let mut words = Pieces::new(rest, b' ');
    let (Some(server), None) = (words.next_piece(), words.next_piece()) else {
        return None;
    };
    two_numbers(server, b'.')
}

/// A server and the number of an activation behind it, which stand alone.
fn activation(rest: &[u8]) -> Option<((u32, u32), u32)>
    ensures { result ≡ activation_read (words rest.now) }
{
    let mut words = Pieces::new(rest, b' ');
    let (Some(server), Some(act), None) = (
        words.next_piece(),
        words.next_piece(),
        words.next_piece(),
    ) else {
        return None;
    };
    Some((two_numbers(server, b'.')?, number(act)?))
}

/// A number and the word behind it, which stand alone.
pub(crate) fn number_and_word(rest: &[u8]) -> Option<(u32, &[u8])>
    ensures { option_map (λ found. (found.0, found.1.now)) result ≡ numbered_word (words rest.now) }
{
    let mut words = Pieces::new(rest, b' ');
    let (Some(first), Some(word), None) = (
        words.next_piece(),
        words.next_piece(),
        words.next_piece(),
    ) else {
        return None;
    };
    Some((number(first)?, word))
}

/// A number that may stand behind a minus sign.
fn signed(word: &[u8]) -> Option<i64>
    ensures { result ≡ signed_read word.now }
{
    match word {
        [b'-', digits @ ..] => Some(-i64::from(number(digits)?)),
        _ => Some(i64::from(number(word)?)),
    }
}

/// A number of 16 bits.
fn short(word: &[u8]) -> Option<u16>
    ensures { result ≡ short_read word.now }
{
    let number = number(word)?;
    if number > u32::from(u16::MAX) {
        return None;
    }
    Some(number as u16)
}

/// Whether all characters are printable, and no spaces.
fn are_visible(name: &[u8]) -> bool
    ensures { result ≡ list_all is_visible name.now }
{
    name.iter().all(|c| is_visible(*c))
}

/// Whether a frame's file may have this name.
fn is_file_name(name: &[u8]) -> bool
    ensures { result ≡ is_file_name name.now }
{
    !name.is_empty() && name.len() <= NAME_SIZE && are_visible(name) && !name.ends_with(b".journal")
}

/// A frame's name and size.
fn sized(alloc: Global, rest: &[u8]) -> Result<Option<(Bytes, u16, u16)>, AllocError>
    ensures read { IfOk result (λ frame. frame ≡ sized_read (words rest.now)) }
    ensures within { IfErr result (λ _. IsSome (sized_read (words rest.now))) }
{
    let mut words = Pieces::new(rest, b' ');
    let (Some(name), Some(width), Some(height), None) = (
        words.next_piece(),
        words.next_piece(),
        words.next_piece(),
        words.next_piece(),
    ) else {
        return Ok(None);
    };
    let (true, Some(width), Some(height)) = (is_file_name(name), short(width), short(height)) else {
        return Ok(None);
    };
    let name = Bytes::from_slice(alloc, name)?;
    Ok(Some((name, width, height)))
}

/// The frame that what stands behind `new` spells.
#[tactic(auto, using(crate::proofs::Memory::new_takes))]
fn new_frame(alloc: Global, rest: &[u8]) -> Result<Option<Event>, AllocError>
    ensures read { IfOk result (λ event. event ≡ new_read (words rest.now)) }
    ensures within { IfErr result (λ _. IsTrue (takes_memory (new_read (words rest.now)))) }
{
    match sized(alloc, rest)? {
        Some((name, width, height)) => Ok(Some(Event::Command(Command::New(name, width, height)))),
        None => Ok(None),
    }
}

/// The file to be opened that what stands behind `open` spells.
#[tactic(auto, using(crate::proofs::Memory::open_spells))]
fn opened_frame(alloc: Global, rest: &[u8]) -> Result<Option<Event>, AllocError>
    ensures read { IfOk result (λ event. event ≡ open_read (words rest.now)) }
    ensures within { IfErr result (λ _. IsSome (open_read (words rest.now))) }
{
    match sized(alloc, rest)? {
        Some((name, width, height)) => Ok(Some(Event::Open(name, width, height))),
        None => Ok(None),
    }
}

/// The save under another name that what stands behind `saveas` spells.
fn save_as(alloc: Global, rest: &[u8]) -> Result<Option<Event>, AllocError>
    ensures read { IfOk result (λ event. event ≡ save_as_read (words rest.now)) }
    ensures within { IfErr result (λ _. IsTrue (takes_memory (save_as_read (words rest.now)))) }
{
    let Some((frame, name)) = number_and_word(rest) else {
        return Ok(None);
    };
    if !is_file_name(name) {
        return Ok(None);
    }
    let name = Bytes::from_slice(alloc, name)?;
    Ok(Some(Event::Command(Command::SaveAs(frame, name))))
}

/// The kind that a word spells.
fn kind(word: &[u8]) -> Option<ObjectKind>
    ensures { result ≡ kind_read word.now }
{
    if is_word(word, b"note") {
        Some(ObjectKind::Note)
    } else if is_word(word, b"table") {
        Some(ObjectKind::Table)
    } else if is_word(word, b"drawing") {
        Some(ObjectKind::Drawing)
    } else {
        None
    }
}

/// The cells that four words spell.
fn area(x: &[u8], y: &[u8], w: &[u8], h: &[u8]) -> Option<Area>
    ensures { result ≡ area_of (short_read x.now) (short_read y.now) (short_read w.now) (short_read h.now) }
{
    match (short(x), short(y), short(w), short(h)) {
        (Some(x), Some(y), Some(w), Some(h)) => Some(Area { x, y, w, h }),
        _ => None,
    }
}

/// The object that what stands behind `insert` spells.
fn insert(rest: &[u8]) -> Option<Event>
    ensures { result ≡ insert_read (words rest.now) }
{
    let mut words = Pieces::new(rest, b' ');
    let (Some(frame), Some(chosen), Some(x), Some(y), Some(w), Some(h), None) = (
        words.next_piece(),
        words.next_piece(),
        words.next_piece(),
        words.next_piece(),
        words.next_piece(),
        words.next_piece(),
        words.next_piece(),
    ) else {
        return None;
    };
    match (number(frame), kind(chosen), area(x, y, w, h)) {
        (Some(frame), Some(kind), Some(area)) => {
            Some(Event::Command(Command::Insert(frame, kind, area)))
        }
        _ => None,
    }
}

/// How an object is closed.
fn option(word: &[u8]) -> Option<CloseOption>
    ensures { result ≡ option_read word.now }
{
    if is_word(word, b"save") {
        Some(CloseOption::SaveIfDirty)
    } else if is_word(word, b"nosave") {
        Some(CloseOption::NoSave)
    } else {
        None
    }
}

/// The close that what stands behind `close` spells.
fn close(rest: &[u8]) -> Option<Event>
    ensures { result ≡ close_read (words rest.now) }
{
    let (object, chosen) = number_and_word(rest)?;
    Some(Event::Command(Command::Close(object, option(chosen)?)))
}

/// Whether a commit in doubt was kept.
fn outcome(word: &[u8]) -> Option<bool>
    ensures { result ≡ outcome_read word.now }
{
    if is_word(word, b"kept") {
        Some(true)
    } else if is_word(word, b"lost") {
        Some(false)
    } else {
        None
    }
}

/// What is known of a commit in doubt, as what stands behind `resolve` spells it.
fn resolve(rest: &[u8]) -> Option<Event>
    ensures { result ≡ resolve_read (words rest.now) }
{
    let (frame, word) = number_and_word(rest)?;
    Some(Event::Resolve(frame, outcome(word)?))
}

/// The verb that what stands behind `verb` spells.
fn verb(rest: &[u8]) -> Option<Event>
    ensures { result ≡ verb_read (words rest.now) }
{
    let (object, word) = number_and_word(rest)?;
    Some(Event::Command(Command::Verb(object, signed(word)?)))
}

/// The edit that what stands behind `edit` spells.
#[tactic(auto, using(crate::proofs::Behind::readings))]
fn edit(alloc: Global, rest: &[u8]) -> Result<Option<Event>, AllocError>
    ensures read { IfOk result (λ event. event ≡ edit_read (words rest.now)) }
    ensures within { IfErr result (λ _. IsTrue (takes_memory (edit_read (words rest.now)))) }
{
    let (object, Some(bytes)) = cut(rest, b' ') else {
        return Ok(None);
    };
    let Some(object) = number(object) else {
        return Ok(None);
    };
    let bytes = Bytes::from_slice(alloc, bytes)?;
    Ok(Some(Event::Command(Command::Edit(object, bytes))))
}
