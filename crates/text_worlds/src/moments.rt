//! Texts of moments, line by line: events, and stops of the container.

ghost use Rattle.text_worlds.specs.Moments.{RefusesMoments, may_want_any, moment_of, moments_read, numbers_of, stop_in};
ghost use Rattle.text_worlds.specs.Moments.{stop_named, stop_of};
ghost use Rattle.std.specs.Prelude.{◌≡◌, ◌<◌, ◌^◌, [], Ok, is_some, length, option_map, IfErr, IfOk, IsSome, IsTrue};
ghost use Rattle.std.specs.Str.{bytes_eq};
ghost use Rattle.text_words.specs.Words.{words};
ghost use Rattle.text_io.specs.Lines.{is_skipped};

use crate::lines::parse_line;
use message_values::items::Items;
use std::alloc::{AllocError, Global};
use text_io::lines::SyntaxFault;
use text_words::words::{Pieces, cut, number};
use world_model::moment::Moment;

/// Whether a line says nothing: it is empty, or it begins with `#`.
fn is_skipped(line: &[u8]) -> bool
    ensures { result ≡ is_skipped line.now }
{
    match line {
        [] => true,
        [first, ..] => *first == b'#',
    }
}

/// Whether a word is this one.
fn is_word(word: &[u8], other: &[u8]) -> bool
    ensures { result ≡ bytes_eq word.now other.now }
{
    word == other
}

/// Whether all words of a text are numbers.
fn are_numbers(text: &[u8]) -> bool
    ensures { result ≡ is_some (numbers_of (words text.now)) }
{
    let mut left = Pieces::new(text, b' ');
    while let Some(word) = left.next_piece() {
        match number(word) {
            Some(_) => {}
            None => return false,
        }
    }
    true
}

/// The numbers that the words of a text spell.
fn collect_numbers(alloc: Global, text: &[u8]) -> Result<Option<Items<u32>>, AllocError>
    ensures { IfOk result (λ numbers. numbers ≡ numbers_of (words text.now)) }
{
    let mut numbers = Items::new(alloc);
    let mut left = Pieces::new(text, b' ');
    while let Some(word) = left.next_piece() {
        match number(word) {
            Some(one) => numbers.push(one)?,
            None => return Ok(None),
        }
    }
    Ok(Some(numbers))
}

/// The numbers that the words of a text spell. Memory is taken where all of them are numbers.
fn read_numbers(alloc: Global, text: &[u8]) -> Result<Option<Items<u32>>, AllocError>
    ensures read { IfOk result (λ numbers. numbers ≡ numbers_of (words text.now)) }
    ensures within { IfErr result (λ _. IsSome (numbers_of (words text.now))) }
{
    if are_numbers(text) {
        collect_numbers(alloc, text)
    } else {
        Ok(None)
    }
}

/// The stop that a word alone spells.
fn parse_alone(alloc: Global, name: &[u8]) -> Option<Moment>
    ensures { result ≡ stop_named name.now [] }
{
    if is_word(name, b"stop") {
        Some(Moment::Stop(Items::new(alloc)))
    } else {
        None
    }
}

/// The stop that a name and the numbers behind its space spell.
fn parse_with(alloc: Global, name: &[u8], rest: &[u8]) -> Result<Option<Moment>, AllocError>
    ensures read { IfOk result (λ moment. moment ≡ stop_named name.now (words rest.now)) }
    ensures within { IfErr result (λ _. IsSome (stop_named name.now (words rest.now))) }
{
    if is_word(name, b"stop") {
        stop(alloc, rest)
    } else {
        Ok(None)
    }
}

/// The stop of which the frames stand behind the space.
#[tactic(auto, using(crate::proofs::Stops::stop_spells))]
fn stop(alloc: Global, rest: &[u8]) -> Result<Option<Moment>, AllocError>
    ensures read { IfOk result (λ moment. moment ≡ option_map stop_of (numbers_of (words rest.now))) }
    ensures within { IfErr result (λ _. IsSome (option_map stop_of (numbers_of (words rest.now)))) }
{
    match read_numbers(alloc, rest)? {
        Some(frames) => Ok(Some(Moment::Stop(frames))),
        None => Ok(None),
    }
}

/// The stop that a line spells. Memory is taken for a line that spells one.
fn parse_stop(alloc: Global, line: &[u8]) -> Result<Option<Moment>, AllocError>
    ensures read { IfOk result (λ moment. moment ≡ stop_in (words line.now)) }
    ensures within { IfErr result (λ _. IsSome (stop_in (words line.now))) }
{
    match cut(line, b' ') {
        (name, Some(rest)) => parse_with(alloc, name, rest),
        (name, None) => Ok(parse_alone(alloc, name)),
    }
}

/// The moment that a line spells.
///
/// Refused for want of memory alone: of a line that spells a moment, or of forged bytes, before it is known whether
/// they are a message.
pub fn parse_moment(alloc: Global, line: &[u8]) -> Result<Option<Moment>, AllocError>
    ensures read { IfOk result (λ moment. moment ≡ moment_of line.now) }
    ensures within { IfErr result (λ _. IsTrue (may_want_any line.now)) }
{
    match parse_stop(alloc, line)? {
        Some(stop) => return Ok(Some(stop)),
        None => {}
    }
    match parse_line(alloc, line)? {
        Some(event) => Ok(Some(Moment::Event(event))),
        None => Ok(None),
    }
}

/// The moments that the lines of a text spell. Empty lines and lines that begin with `#` are skipped.
///
/// Refused: the first line that spells no moment (`Bad`), with its number from 1; `NoMemory` with the number of the
/// line at which no memory was left, up to which all lines spell moments, but that a forged message there needn't be
/// one.
pub fn parse_moments(alloc: Global, text: &[u8]) -> Result<Vec<Moment>, (usize, SyntaxFault)>
    requires { length text.now < 2 ^ 32 }
    ensures read { IfOk result (λ moments. moments_read text.now ≡ Ok moments.items) }
    ensures refused { IfErr result (RefusesMoments text.now) }
{
    let mut moments = Vec::new(alloc);
    let mut left = Pieces::new(text, b'\n');
    let mut number: usize = 0;
    while let Some(line) = left.next_piece() {
        number += 1;
        if is_skipped(line) {
            continue;
        }
        match parse_moment(alloc, line) {
            Ok(Some(moment)) => match moments.push(moment) {
                Ok(()) => {}
                Err(_) => return Err((number, SyntaxFault::NoMemory)),
            },
            Ok(None) => return Err((number, SyntaxFault::Bad)),
            Err(_) => return Err((number, SyntaxFault::NoMemory)),
        }
    }
    Ok(moments)
}
