//! Paths of names, as they are spelled in texts.

ghost use Rattle.cfb_names.specs.Names.{name_read as taken_name};
ghost use Rattle.cfb_names.specs.View.{units_of};
ghost use Rattle.std.specs.List.{list_any};
ghost use Rattle.std.specs.Option.{option_map};
ghost use Rattle.std.specs.Prelude.{◌≡◌, ◌<◌, ◌≤◌, ◌++◌, [], ◌∷◌, Some, None, Ok, Err, true, false, length, is_some};
ghost use Rattle.std.specs.Prelude.{IfErr, IfNone, IfOk, IfSome, IsOk, IsSome, MatchResult, OnOk, take};
ghost use Rattle.text_words.specs.Words.{words};
ghost use Rattle.text_spelling.specs.Paths.{is_escaped, is_special, name_read, names_read, path_read};
ghost use Rattle.text_spelling.specs.Words.{onto};

use crate::words::{is_hidden, lower_digit};
use cfb_names::fault::DirFault;
use cfb_names::name::{LONGEST, Name, named};
use std::alloc::{AllocError, Global};
use std::marker::Model;
use text_words::words::Pieces;

/// The names of a path, or why a directory doesn't take one of them.
#[derive(Drop)]
pub struct Path {
    names: Vec<Name>,
    fault: Option<DirFault>,
}

impl Model for Path {
    ghost use Rattle.cfb_names.specs.declared.fault.DirFault.{DirFault};
    ghost use Rattle.std.specs.Prelude.{List, Result, ℕ};
    ghost use Rattle.text_spelling.specs.Paths.{path_of};

    ghost Value = { Result (List (List ℕ)) DirFault };

    ghost view = { λ p. path_of p.fault p.names.items };
}

impl Path {
    /// The path that a word spells. Want of memory is told of a word that spells one.
    pub fn parse(alloc: Global, word: &[u8]) -> Result<Option<Path>, AllocError>
        ensures read { IfOk result (λ path. path ≡ path_read word.now) }
        ensures within { IfErr result (λ _. IsSome (path_read word.now)) }
    {
        match spelled(alloc, word) {
            Ok(path) => Ok(path),
            // Memory was asked for before it was known whether the word spells something, so only where it was refused
            // is the word gone over a second time, to tell want of memory of a word within the grammar alone.
            Err(AllocError) => {
                if is_path(word) {
                    Err(AllocError)
                } else {
                    Ok(None)
                }
            }
        }
    }

    /// The names.
    ///
    /// Refused: the first name that a directory doesn't take, by its fault.
    pub fn names(&self) -> Result<&[Name], DirFault>
        ensures { MatchResult result (λ names. self.now ≡ Ok names.now) (λ fault. self.now ≡ Err fault) }
    {
        match self.fault {
            None => Ok(&self.names),
            Some(fault) => Err(fault),
        }
    }
}

/// The path that a word spells, in one pass over it.
fn spelled(alloc: Global, word: &[u8]) -> Result<Option<Path>, AllocError>
    ensures { IfOk result (λ path. path ≡ path_read word.now) }
{
    if word.is_empty() {
        return Ok(None);
    }
    let mut buffer = Vec::new(alloc);
    let mut names = Vec::with_capacity(alloc, 1)?;
    let mut parts = Pieces::new(word, b'/');
    while let Some(part) = parts.next_piece() {
        // Nearly all names are spelled so, and take no buffer then.
        if is_plain(part) {
            if let Err(fault) = add_name(&mut names, part)? {
                return Ok(refused(names, fault, parts));
            }
            continue;
        }
        if !read_name(&mut buffer, part)? {
            return Ok(None);
        }
        if let Err(fault) = add_name(&mut names, &buffer)? {
            return Ok(refused(names, fault, parts));
        }
    }
    Ok(Some(Path { names, fault: None }))
}

/// The path of this fault of a name, if the parts behind that name spell names.
fn refused(names: Vec<Name>, fault: DirFault, parts: Pieces<'_>) -> Option<Path>
    ensures { result ≡ option_map (λ _. Err fault) (names_read parts.entry) }
{
    if are_names(parts) {
        Some(Path {
            names,
            fault: Some(fault),
        })
    } else {
        None
    }
}

/// Adds the name of these bytes. Memory is taken for a name that a directory takes.
///
/// Refused: a name that a directory doesn't take, by its fault.
fn add_name(names: &mut Vec<Name>, bytes: &[u8]) -> Result<Result<(), DirFault>, AllocError>
    ensures pushed { IfOk result (λ r. OnOk r (names.new.items ≡ names.old.items ++ bytes.now ∷ [])) }
    ensures taken { IfOk result (λ r. OnOk r (taken_name bytes.now ≡ Ok bytes.now)) }
    ensures refused { IfOk result (λ r. IfErr r (λ fault. taken_name bytes.now ≡ Err fault)) }
    ensures within { IfErr result (λ _. IsOk (taken_name bytes.now)) }
{
    match named(bytes) {
        Ok(name) => {
            names.push(name)?;
            Ok(Ok(()))
        }
        Err(fault) => Ok(Err(fault)),
    }
}

/// Whether a word spells a path.
pub fn is_path(word: &[u8]) -> bool
    ensures { result ≡ is_some (path_read word.now) }
{
    if word.is_empty() {
        return false;
    }
    are_names(Pieces::new(word, b'/'))
}

/// Whether all of these parts of a path spell names.
fn are_names(mut parts: Pieces<'_>) -> bool
    ensures { result ≡ is_some (names_read parts.entry) }
{
    while let Some(part) = parts.next_piece() {
        if !is_name(part) {
            return false;
        }
    }
    true
}

/// Whether a part of a path spells a name.
fn is_name(part: &[u8]) -> bool
    ensures { result ≡ is_some (name_read part.now) }
{
    let mut rest = part;
    while !rest.is_empty() {
        match first_byte(rest) {
            Some((_, behind)) => rest = behind,
            None => return false,
        }
    }
    true
}

/// The first byte that a name's spelling stands for, and what is spelled behind it.
fn first_byte(part: &[u8]) -> Option<(u8, &[u8])>
    requires { 0 < length part.now }
    ensures found { IfSome result (λ r. name_read part.now ≡ onto (Some r.0) (name_read r.1.now)) }
    ensures shorter { IfSome result (λ r. length r.1.now < length part.now) }
    ensures none { IfNone result (name_read part.now ≡ None) }
{
    match part {
        [b'\\', high, low, rest @ ..] => {
            let byte = 16 * lower_digit(*high)? + lower_digit(*low)?;
            if is_hidden(byte) {
                Some((byte, rest))
            } else {
                None
            }
        }
        [byte, rest @ ..] => {
            if is_hidden(*byte) || *byte == b'\\' {
                None
            } else {
                Some((*byte, rest))
            }
        }
        [] => None,
    }
}

/// Whether a byte of a name's spelling doesn't stand for itself.
fn is_escaped(byte: u8) -> bool
    ensures { result ≡ is_escaped byte }
{
    is_hidden(byte) || byte == b'\\'
}

/// Whether one of the bytes doesn't.
fn has_escaped(part: &[u8]) -> bool
    ensures { result ≡ list_any is_escaped part.now }
{
    part.iter().any(|byte| is_escaped(*byte))
}

/// Whether each byte of a part of a path stands for itself, so that the part spells the name of its bytes.
fn is_plain(part: &[u8]) -> bool
    ensures { result ≡ true → name_read part.now ≡ Some part.now }
{
    !has_escaped(part)
}

/// Leaves the name that a part of a path spells in the buffer, and says whether it spells one.
fn read_name(buffer: &mut Vec<u8>, part: &[u8]) -> Result<bool, AllocError>
    ensures found { IfOk result (λ is. is ≡ true → name_read part.now ≡ Some buffer.new.items) }
    ensures none { IfOk result (λ is. is ≡ false → name_read part.now ≡ None) }
{
    buffer.clear();
    let mut rest = part;
    while !rest.is_empty() {
        match first_byte(rest) {
            Some((byte, behind)) => {
                buffer.push(byte)?;
                rest = behind;
            }
            None => return Ok(false),
        }
    }
    Ok(true)
}

/// Of each byte whether it can't stand in a name that spells itself: hidden, one of `\ / : !`, or past 127.
const SPECIAL: [bool; 256] = [
    true, true, true, true, true, true, true, true, true, true, true, true, true, true, true, true,
    true, true, true, true, true, true, true, true, true, true, true, true, true, true, true, true,
    true, true, false, false, false, false, false, false, false, false, false, false, false, false,
    false, true, false, false, false, false, false, false, false, false, false, false, true, false,
    false, false, false, false, false, false, false, false, false, false, false, false, false,
    false, false, false, false, false, false, false, false, false, false, false, false, false,
    false, false, false, false, false, false, true, false, false, false, false, false, false,
    false, false, false, false, false, false, false, false, false, false, false, false, false,
    false, false, false, false, false, false, false, false, false, false, false, false, false,
    false, false, true, true, true, true, true, true, true, true, true, true, true, true, true,
    true, true, true, true, true, true, true, true, true, true, true, true, true, true, true, true,
    true, true, true, true, true, true, true, true, true, true, true, true, true, true, true, true,
    true, true, true, true, true, true, true, true, true, true, true, true, true, true, true, true,
    true, true, true, true, true, true, true, true, true, true, true, true, true, true, true, true,
    true, true, true, true, true, true, true, true, true, true, true, true, true, true, true, true,
    true, true, true, true, true, true, true, true, true, true, true, true, true, true, true, true,
    true, true, true, true, true, true, true, true, true, true, true, true, true, true, true, true,
    true, true, true, true,
];

/// Whether a byte can't stand in a name that spells itself.
fn is_special(byte: u8) -> bool
    ensures { result ≡ is_special byte }
{
    SPECIAL[usize::from(byte)]
}

/// How many bytes at the beginning of a text may stand in a name that spells itself.
fn plain_len(text: &[u8]) -> usize
    ensures within { result ≤ length text.now }
    ensures plain { list_any is_special (take result text.now) ≡ false }
{
    let mut len = 0;
    while len < text.len() && !is_special(text[len]) {
        len += 1;
    }
    len
}

/// How a name lies in its bytes: its length, its characters, and zeros.
fn units_of(name: &[u8]) -> [u8; 32]
    requires { length name.now ≤ 31 }
    ensures { result ≡ units_of name.now }
{
    let mut units = [0; 32];
    units[0] = name.len() as u8;
    units[1..=name.len()].copy_from_slice(name);
    units
}

/// The name of a text's first word, where this spells a path of one name and each of its bytes stands for itself, and
/// what stands behind the space behind it. None says nothing of the text.
pub fn plain_start(text: &[u8]) -> Option<(Name, &[u8])>
    ensures cut { IfSome result (λ r. words text.now ≡ r.0 ∷ words r.1.now) }
    ensures read { IfSome result (λ r. path_read r.0 ≡ Some (Ok (r.0 ∷ []))) }
{
    let len = plain_len(text);
    if len == 0 || len > LONGEST || len >= text.len() || text[len] != b' ' {
        return None;
    }
    let name = Name::from_units(units_of(&text[..len]));
    Some((name, &text[len + 1..]))
}
