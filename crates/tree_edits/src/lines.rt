//! How lines are spelled.

ghost use Rattle.tree_edits.specs.Lines.{change_named, class_line, class_read, file_read, fill_read, is_file_name};
ghost use Rattle.tree_edits.specs.Lines.{line_named, line_read, mark_named, marked_at, remove_read, rename_read};
ghost use Rattle.tree_edits.specs.Lines.{state_line, storage_of, storage_read, stream_read};
ghost use Rattle.std.specs.List.{list_all};
ghost use Rattle.std.specs.Str.{bytes_eq};
ghost use Rattle.std.specs.Prelude.{◌≡◌, IfErr, IfOk, IsSome};
ghost use Rattle.text_spelling.specs.Words.{is_visible};
ghost use Rattle.uuid.specs.Text.{parsed};

use crate::change::{Change, Line, Mark};
use std::alloc::{AllocError, Global};
use text_io::lines::Grammar;
use text_spelling::path::{Path, is_path};
use text_spelling::words::{byte, content, is_visible};
use text_words::words::{Pieces, number};
use tree_values::bytes::Bytes;
use tree_values::class_id::ClassId;
use uuid::Uuid;

/// The most characters that the name of a file has.
const NAME_SIZE: usize = 64;

/// The lines of an edit, each with its number.
pub struct EditLines;

impl Grammar for EditLines {
    type Line = (usize, Line);

    ghost use Rattle.tree_edits.specs.Lines.{numbered_read};

    ghost read = { numbered_read };

    fn parse(
        alloc: Global,
        number: usize,
        line: &[u8],
    ) -> Result<Option<(usize, Line)>, AllocError> {
        match parse_line(alloc, line) {
            Ok(Some(asked)) => Ok(Some((number, asked))),
            Ok(None) => Ok(None),
            Err(error) => Err(error),
        }
    }
}

/// What a line asks for. Memory is taken for a line that asks for something.
pub fn parse_line(alloc: Global, line: &[u8]) -> Result<Option<Line>, AllocError>
    ensures read { IfOk result (λ asked. asked ≡ line_read line.now) }
    ensures within { IfErr result (λ _. IsSome (line_read line.now)) }
{
    let mut words = Pieces::new(line, b' ');
    match words.next_piece() {
        Some(name) => parse_named(alloc, name, words),
        None => Ok(None),
    }
}

/// Whether a word is this one.
fn is_word(word: &[u8], other: &[u8]) -> bool
    ensures { result ≡ bytes_eq word.now other.now }
{
    word == other
}

/// What a name and the words behind it ask for.
fn parse_named(alloc: Global, name: &[u8], words: Pieces<'_>) -> Result<Option<Line>, AllocError>
    ensures read { IfOk result (λ asked. asked ≡ line_named name.now words.entry) }
    ensures within { IfErr result (λ _. IsSome (line_named name.now words.entry)) }
{
    if is_word(name, b"stream") {
        stream(alloc, words)
    } else if is_word(name, b"fill") {
        fill(alloc, words)
    } else if is_word(name, b"file") {
        file(alloc, words)
    } else {
        change_named(alloc, name, words)
    }
}

/// The change that the name of one without bytes and the words behind it ask for.
fn change_named(alloc: Global, name: &[u8], words: Pieces<'_>) -> Result<Option<Line>, AllocError>
    ensures read { IfOk result (λ asked. asked ≡ change_named name.now words.entry) }
    ensures within { IfErr result (λ _. IsSome (change_named name.now words.entry)) }
{
    if is_word(name, b"storage") {
        storage(alloc, words)
    } else if is_word(name, b"remove") {
        remove(alloc, words)
    } else if is_word(name, b"rename") {
        rename(alloc, words)
    } else {
        mark_named(alloc, name, words)
    }
}

/// The mark that its name and the words behind it ask for.
fn mark_named(alloc: Global, name: &[u8], words: Pieces<'_>) -> Result<Option<Line>, AllocError>
    ensures read { IfOk result (λ asked. asked ≡ mark_named name.now words.entry) }
    ensures within { IfErr result (λ _. IsSome (mark_named name.now words.entry)) }
{
    if is_word(name, b"class") {
        class(alloc, words)
    } else if is_word(name, b"state") {
        state(alloc, words)
    } else {
        Ok(None)
    }
}

/// The stream that the words behind `stream` ask for.
fn stream(alloc: Global, mut words: Pieces<'_>) -> Result<Option<Line>, AllocError>
    ensures read { IfOk result (λ asked. asked ≡ stream_read words.entry) }
    ensures within { IfErr result (λ _. IsSome (stream_read words.entry)) }
{
    let (Some(path), Some(bytes), None) = (
        words.next_piece(),
        words.next_piece(),
        words.next_piece(),
    ) else {
        return Ok(None);
    };
    // Want of memory is told of words within the grammar alone, so both are looked at before memory is taken.
    if !is_path(path) {
        return Ok(None);
    }
    let Some(bytes) = content(alloc, bytes)? else {
        return Ok(None);
    };
    let Some(path) = Path::parse(alloc, path)? else {
        return Ok(None);
    };
    let bytes = Bytes::from_vec(alloc, bytes)?;
    Ok(Some(Line::Plain(Change::Put(path, bytes))))
}

/// The stream that the words behind `fill` ask for.
fn fill(alloc: Global, mut words: Pieces<'_>) -> Result<Option<Line>, AllocError>
    ensures read { IfOk result (λ asked. asked ≡ fill_read words.entry) }
    ensures within { IfErr result (λ _. IsSome (fill_read words.entry)) }
{
    let (Some(path), Some(count), Some(value), None) = (
        words.next_piece(),
        words.next_piece(),
        words.next_piece(),
        words.next_piece(),
    ) else {
        return Ok(None);
    };
    let (Some(count), Some(value)) = (number(count), byte(value)) else {
        return Ok(None);
    };
    match Path::parse(alloc, path)? {
        Some(path) => Ok(Some(Line::Plain(Change::Fill(path, count, value)))),
        None => Ok(None),
    }
}

/// Whether each byte can be seen.
fn are_visible(name: &[u8]) -> bool
    ensures { result ≡ list_all is_visible name.now }
{
    name.iter().all(|c| is_visible(*c))
}

/// Whether a file that a line names may have this name.
fn is_file_name(name: &[u8]) -> bool
    ensures { result ≡ is_file_name name.now }
{
    !name.is_empty() && name.len() <= NAME_SIZE && are_visible(name)
}

/// The stream that the words behind `file` ask for.
fn file(alloc: Global, mut words: Pieces<'_>) -> Result<Option<Line>, AllocError>
    ensures read { IfOk result (λ asked. asked ≡ file_read words.entry) }
    ensures within { IfErr result (λ _. IsSome (file_read words.entry)) }
{
    let (Some(path), Some(name), None) = (
        words.next_piece(),
        words.next_piece(),
        words.next_piece(),
    ) else {
        return Ok(None);
    };
    if !is_file_name(name) {
        return Ok(None);
    }
    let Some(path) = Path::parse(alloc, path)? else {
        return Ok(None);
    };
    let name = Bytes::from_slice(alloc, name)?;
    Ok(Some(Line::File(path, name)))
}

/// The class that a word spells.
fn class_of(word: &[u8]) -> Option<ClassId>
    ensures { result ≡ class_read word.now }
{
    match id_of(word) {
        Some(id) => Some(ClassId::from_bytes(id.to_bytes_le())),
        None => None,
    }
}

/// The id that a word spells.
fn id_of(word: &[u8]) -> Option<Uuid>
    ensures { result ≡ parsed word.now }
{
    match Uuid::try_parse_ascii(word) {
        Ok(id) => Some(id),
        Err(_) => None,
    }
}

/// The storage that the words behind `storage` ask for.
fn storage(alloc: Global, mut words: Pieces<'_>) -> Result<Option<Line>, AllocError>
    ensures read { IfOk result (λ asked. asked ≡ storage_read words.entry) }
    ensures within { IfErr result (λ _. IsSome (storage_read words.entry)) }
{
    let Some(path) = words.next_piece() else {
        return Ok(None);
    };
    let Some(class) = words.next_piece() else {
        return storage_of(alloc, path, ClassId::from_bytes([0; 16]));
    };
    if words.next_piece().is_some() {
        return Ok(None);
    }
    match class_of(class) {
        Some(class) => storage_of(alloc, path, class),
        None => Ok(None),
    }
}

/// The storage of this class at the path that a word spells.
fn storage_of(alloc: Global, path: &[u8], class: ClassId) -> Result<Option<Line>, AllocError>
    ensures read { IfOk result (λ asked. asked ≡ storage_of class path.now) }
    ensures within { IfErr result (λ _. IsSome (storage_of class path.now)) }
{
    match Path::parse(alloc, path)? {
        Some(path) => Ok(Some(Line::Plain(Change::Storage(path, class)))),
        None => Ok(None),
    }
}

/// What the words behind `remove` ask for.
fn remove(alloc: Global, mut words: Pieces<'_>) -> Result<Option<Line>, AllocError>
    ensures read { IfOk result (λ asked. asked ≡ remove_read words.entry) }
    ensures within { IfErr result (λ _. IsSome (remove_read words.entry)) }
{
    let (Some(path), None) = (words.next_piece(), words.next_piece()) else {
        return Ok(None);
    };
    match Path::parse(alloc, path)? {
        Some(path) => Ok(Some(Line::Plain(Change::Remove(path)))),
        None => Ok(None),
    }
}

/// What the words behind `rename` ask for.
fn rename(alloc: Global, mut words: Pieces<'_>) -> Result<Option<Line>, AllocError>
    ensures read { IfOk result (λ asked. asked ≡ rename_read words.entry) }
    ensures within { IfErr result (λ _. IsSome (rename_read words.entry)) }
{
    let (Some(path), Some(name), None) = (
        words.next_piece(),
        words.next_piece(),
        words.next_piece(),
    ) else {
        return Ok(None);
    };
    if !is_path(name) {
        return Ok(None);
    }
    let Some(path) = Path::parse(alloc, path)? else {
        return Ok(None);
    };
    let Some(name) = Path::parse(alloc, name)? else {
        return Ok(None);
    };
    Ok(Some(Line::Plain(Change::Rename(path, name))))
}

/// The class that the words behind `class` ask for.
fn class(alloc: Global, mut words: Pieces<'_>) -> Result<Option<Line>, AllocError>
    ensures read { IfOk result (λ asked. asked ≡ class_line words.entry) }
    ensures within { IfErr result (λ _. IsSome (class_line words.entry)) }
{
    let (Some(path), Some(class), None) = (
        words.next_piece(),
        words.next_piece(),
        words.next_piece(),
    ) else {
        return Ok(None);
    };
    match class_of(class) {
        Some(class) => marked(alloc, path, Mark::Class(class)),
        None => Ok(None),
    }
}

/// The state bits that the words behind `state` ask for.
fn state(alloc: Global, mut words: Pieces<'_>) -> Result<Option<Line>, AllocError>
    ensures read { IfOk result (λ asked. asked ≡ state_line words.entry) }
    ensures within { IfErr result (λ _. IsSome (state_line words.entry)) }
{
    let (Some(path), Some(bits), None) = (
        words.next_piece(),
        words.next_piece(),
        words.next_piece(),
    ) else {
        return Ok(None);
    };
    match number(bits) {
        Some(bits) => marked(alloc, path, Mark::State(bits)),
        None => Ok(None),
    }
}

/// This mark of the storage at the path that a word spells, or of the root, which a slash alone stands for.
fn marked(alloc: Global, path: &[u8], mark: Mark) -> Result<Option<Line>, AllocError>
    ensures read { IfOk result (λ asked. asked ≡ marked_at mark path.now) }
    ensures within { IfErr result (λ _. IsSome (marked_at mark path.now)) }
{
    if is_word(path, b"/") {
        return Ok(Some(Line::Plain(Change::MarkRoot(mark))));
    }
    match Path::parse(alloc, path)? {
        Some(path) => Ok(Some(Line::Plain(Change::Mark(path, mark)))),
        None => Ok(None),
    }
}
