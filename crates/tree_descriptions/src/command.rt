//! Commands of a description.

ghost use Rattle.tree_descriptions.specs.Commands.{fill_read, line_read, storage_read, stream_of, stream_read};
ghost use Rattle.std.specs.Prelude.{◌≡◌, ◌∷◌, ◌++◌, [], codes, IfErr, IfOk, IfSome, IsSome, Ok, Some, is_some};
ghost use Rattle.text_spelling.specs.Paths.{path_read};
ghost use Rattle.text_words.specs.Words.{words};
ghost use Rattle.text_spelling.specs.Words.{content_read};

use cfb_names::name::Name;
use std::alloc::{AllocError, Global};
use text_spelling::path::{Path, is_path, plain_start};
use text_spelling::words::{byte, content, is_content};
use text_words::words::{Pieces, cut, number};
use tree_values::bytes::Bytes;

/// What a line of a description asks for.
#[derive(Drop)]
pub enum Command {
    /// A storage at a path.
    Storage(Path),
    /// A stream at a path, of these bytes.
    Stream(Path, Bytes),
    /// A stream at a path, of so many bytes that are all the same.
    Fill(Path, u32, u8),
}

impl Command {
    /// The command that a line spells. Memory is taken for a line that spells one.
    pub fn parse(alloc: Global, line: &[u8]) -> Result<Option<Command>, AllocError>
        ensures read { IfOk result (λ command. command ≡ line_read line.now) }
        ensures within { IfErr result (λ _. IsSome (line_read line.now)) }
    {
        // Each command has words behind its name.
        let (name, Some(rest)) = cut(line, b' ') else {
            return Ok(None);
        };
        if name == b"stream".as_slice() {
            stream(alloc, rest)
        } else if name == b"storage".as_slice() {
            storage(alloc, Pieces::new(rest, b' '))
        } else if name == b"fill".as_slice() {
            fill(alloc, Pieces::new(rest, b' '))
        } else {
            Ok(None)
        }
    }
}

/// Whether a line spells a command.
pub fn is_command(alloc: Global, line: &[u8]) -> bool
    ensures { result ≡ is_some (line_read line.now) }
{
    match Command::parse(alloc, line) {
        Ok(command) => command.is_some(),
        // Memory is told to lack only for a line that spells one.
        Err(_) => true,
    }
}

/// The storage that the words behind `storage` ask for.
fn storage(alloc: Global, mut words: Pieces<'_>) -> Result<Option<Command>, AllocError>
    ensures read { IfOk result (λ command. command ≡ storage_read words.entry) }
    ensures within { IfErr result (λ _. IsSome (storage_read words.entry)) }
{
    let (Some(path), None) = (words.next_piece(), words.next_piece()) else {
        return Ok(None);
    };
    match Path::parse(alloc, path)? {
        Some(path) => Ok(Some(Command::Storage(path))),
        None => Ok(None),
    }
}

/// The stream that the words behind `stream` ask for.
fn stream(alloc: Global, rest: &[u8]) -> Result<Option<Command>, AllocError>
    ensures read { IfOk result (λ command. command ≡ stream_read (words rest.now)) }
    ensures within { IfErr result (λ _. IsSome (stream_read (words rest.now))) }
{
    // What stands behind the path isn't looked through for a space, as it would spell no bytes with one.
    let (path, behind) = cut(rest, b' ');
    match behind {
        Some(bytes) => stream_of(alloc, path, bytes),
        None => Ok(None),
    }
}

/// The stream of a path and of bytes that are spelled so. Want of memory is told of words that ask for one.
fn stream_of(alloc: Global, path: &[u8], bytes: &[u8]) -> Result<Option<Command>, AllocError>
    ensures read { IfOk result (λ command. command ≡ stream_of (path_read path.now) (content_read bytes.now)) }
    ensures within { IfErr result (λ _. IsSome (stream_of (path_read path.now) (content_read bytes.now))) }
{
    match stream_at(alloc, path, bytes) {
        Ok(command) => Ok(command),
        Err(_) => {
            if !is_path(path) {
                return Ok(None);
            }
            if !is_content(bytes) {
                return Ok(None);
            }
            Err(AllocError)
        }
    }
}

/// The same, where want of memory may be told of others too.
fn stream_at(alloc: Global, path: &[u8], bytes: &[u8]) -> Result<Option<Command>, AllocError>
    ensures { IfOk result (λ command. command ≡ stream_of (path_read path.now) (content_read bytes.now)) }
{
    match Path::parse(alloc, path)? {
        Some(path) => match content(alloc, bytes)? {
            Some(bytes) => Ok(Some(Command::Stream(path, Bytes::from_vec(alloc, bytes)?))),
            None => Ok(None),
        },
        None => Ok(None),
    }
}

/// The stream that the words behind `fill` ask for.
fn fill(alloc: Global, mut words: Pieces<'_>) -> Result<Option<Command>, AllocError>
    ensures read { IfOk result (λ command. command ≡ fill_read words.entry) }
    ensures within { IfErr result (λ _. IsSome (fill_read words.entry)) }
{
    let (Some(path), Some(count), Some(value), None) = (
        words.next_piece(),
        words.next_piece(),
        words.next_piece(),
        words.next_piece(),
    ) else {
        return Ok(None);
    };
    let (Some(count), Some(value)) = (number(count), byte(value)) else {
        return Ok(None);
    };
    match Path::parse(alloc, path)? {
        Some(path) => Ok(Some(Command::Fill(path, count, value))),
        None => Ok(None),
    }
}

/// What stands behind `stream ` in a line that begins so.
fn behind_stream(line: &[u8]) -> Option<&[u8]>
    ensures { IfSome result (λ rest. line.now ≡ codes "stream " ++ rest.now) }
{
    // An `==` of slices takes ten times as long.
    match line {
        [b's', b't', b'r', b'e', b'a', b'm', b' ', rest @ ..] => Some(rest),
        _ => None,
    }
}

/// The name of the stream that a line asks for in the root, and the word that spells its bytes, where the name spells
/// itself. None says nothing of the line.
pub fn plain_stream(line: &[u8]) -> Option<(Name, &[u8])>
    ensures { IfSome result (λ s. line_read line.now ≡ stream_of (Some (Ok (s.0 ∷ []))) (content_read s.1.now)) }
{
    let rest = behind_stream(line)?;
    let Some((name, word)) = plain_start(rest) else {
        return None;
    };
    Some((name, word))
}
