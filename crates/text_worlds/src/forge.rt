//! Lines of forged messages.

ghost use Rattle.text_words.specs.Words.{words};
ghost use Rattle.text_worlds.specs.Events.{forge_in, forge_named, forge_read, forge_spelled, forge_tells, is_forge};
ghost use Rattle.text_worlds.specs.Events.{message_told};
ghost use Rattle.text_worlds.specs.Forged.{IsForm, frame_in, framed, message_in};
ghost use Rattle.message_model.specs.Frames.{MOST_BODY};
ghost use Rattle.message_model.specs.Spelling.{head};
ghost use Rattle.std.specs.Prelude.{◌≡◌, ◌≤◌, drop, length, IfErr, IfOk, IfSome, IsSome, IsTrue};
ghost use Rattle.text_spelling.specs.Words.{content_read};

use crate::events::{is_word, number_and_word};
use message_bodies::body::{BodyFault, read_body};
use message_model::codes::{Kind, kind_of};
use message_model::frame::Frame;
use message_values::message::Message;
use std::alloc::{AllocError, Global};
use text_spelling::words::content;
use text_words::words::cut;
use world_model::event::Event;

/// How many bytes stand before a body.
const HEAD_LEN: usize = 10;

/// The greatest length of a body, in bytes.
const MOST_BODY: usize = 1_048_576;

/// The bytes before a body of this number and length.
#[tactic(auto, unfolding(message_model::specs::Spelling::four_bytes))]
fn head(number: u8, len: usize) -> [u8; 10]
    requires { len ≤ MOST_BODY }
    ensures { result ≡ head number len }
{
    let [a, b, c, d] = (len as u32).to_le_bytes();
    [b'O', b'L', b'C', b'M', 2, number, a, b, c, d]
}

/// The kind of the frame of which all bytes behind the head are the body.
fn kind_in(bytes: &[u8]) -> Option<Kind>
    ensures long { IfSome result (λ _. HEAD_LEN ≤ length bytes.now) }
    ensures framed { frame_in bytes.now ≡ framed result (drop 10 bytes.now) }
{
    if bytes.len() < HEAD_LEN {
        return None;
    }
    let (front, body) = bytes.split_at(HEAD_LEN);
    if body.len() > MOST_BODY {
        return None;
    }
    let number = bytes[5];
    if front != head(number, body.len()).as_slice() {
        return None;
    }
    kind_of(number)
}

/// The message whose byte form these bytes are, all of them.
///
/// Refused for want of memory alone, which is taken before it is known whether they are one.
pub fn message(alloc: Global, bytes: &[u8]) -> Result<Option<Message>, AllocError>
    ensures read { IfOk result (λ message. message ≡ message_in bytes.now) }
    ensures form { IfOk result (IsForm bytes.now) }
{
    let Some(kind) = kind_in(bytes) else {
        return Ok(None);
    };
    let (_, body) = bytes.split_at(HEAD_LEN);
    match read_body(alloc, kind, body) {
        Ok(Frame::Message(message)) => Ok(Some(message)),
        Ok(Frame::Turn) => Ok(None),
        Err(BodyFault::Bad) => Ok(None),
        Err(BodyFault::Memory) => Err(AllocError),
    }
}

/// The message of which a word has the byte form, in hexadecimal. Memory is taken for a word that is hexadecimal.
fn message_told(alloc: Global, word: &[u8]) -> Result<Option<Message>, AllocError>
    ensures read { IfOk result (λ message. message ≡ message_told (content_read word.now)) }
    ensures within { IfErr result (λ _. IsSome (content_read word.now)) }
{
    match content(alloc, word)? {
        Some(bytes) => message(alloc, &bytes),
        None => Ok(None),
    }
}

/// The forged message that what stands behind `forge` spells.
fn forged(alloc: Global, rest: &[u8]) -> Result<Option<Event>, AllocError>
    ensures read { IfOk result (λ event. event ≡ forge_read (words rest.now)) }
    ensures within { IfErr result (λ _. IsTrue (forge_spelled (words rest.now))) }
{
    let Some((inc, bytes)) = number_and_word(rest) else {
        return Ok(None);
    };
    match message_told(alloc, bytes)? {
        Some(message) => Ok(Some(Event::Forge(inc, message))),
        None => Ok(None),
    }
}

/// The forged message that a name and what stands behind its space spell.
fn parse_forge_with(alloc: Global, name: &[u8], rest: &[u8]) -> Result<Option<Event>, AllocError>
    ensures read { IfOk result (λ event. event ≡ forge_named name.now (words rest.now)) }
    ensures within { IfErr result (λ _. IsTrue (forge_tells name.now (words rest.now))) }
{
    if is_word(name, b"forge") {
        forged(alloc, rest)
    } else {
        Ok(None)
    }
}

/// The forged message that a line spells. Memory is taken for a line of hexadecimal bytes, before it is known what
/// message they are.
#[tactic(auto, using(crate::proofs::Behind::forge_alone))]
pub(crate) fn parse_forge(alloc: Global, line: &[u8]) -> Result<Option<Event>, AllocError>
    ensures read { IfOk result (λ event. event ≡ forge_in (words line.now)) }
    ensures within { IfErr result (λ _. IsTrue (is_forge (words line.now))) }
{
    match cut(line, b' ') {
        (name, Some(rest)) => parse_forge_with(alloc, name, rest),
        (_, None) => Ok(None),
    }
}
