//! The entries of a table's stream.

ghost use Rattle.object_core.specs.Content.{table};
ghost use Rattle.object_core.specs.Kinds.{Table};
ghost use Rattle.object_core.specs.Objects.{Refuses, load_told};
ghost use Rattle.object_core.specs.Reading.{content_of, entry_in};
ghost use Rattle.text_words.specs.Words.{words};
ghost use Rattle.object_kinds.specs.Listed.{behind, entries_of, sound};
ghost use Rattle.object_kinds.specs.Placed.{cell_at, entries_at, named};
ghost use Rattle.std.specs.Option.{is_some, option_map};
ghost use Rattle.std.specs.Prelude.{◌<◌, ◌≡◌, ◌∷◌, IfErr, IfOk, IfSome, IsSome, MatchOption, None, Ok, Some, length};

use crate::cell_name::{self, CellName};
use crate::cell_texts;
use object_core::fault::EmbedFault;
use std::alloc::Global;
use std::collections::BTreeMap;
use text_words::words::cut;

/// The first of the entries that a stream holds, and what is behind it.
#[derive(Clone, Copy)]
struct Front<'a> {
    /// The place of its cell.
    place: u16,
    /// Its text.
    text: &'a [u8],
    /// The bytes behind it.
    rest: &'a [u8],
}

/// The cell and the text that a line spells, if any.
#[tactic(auto, using(object_core::proofs::Behind::readings))]
fn spelled(line: &[u8]) -> Option<(CellName, &[u8])>
    ensures { option_map (λ e. (named e.0, e.1.now)) result ≡ entry_in (words line.now) }
{
    let (name, text) = cut(line, b' ');
    let text = text?;
    Some((cell_name::read(name)?, text))
}

/// The place and the text of the entry that a line spells, if it spells a sound one.
fn entry(line: &[u8]) -> Option<(u16, &[u8])>
    ensures { option_map (λ e. (cell_at e.0, e.1.now)) result ≡ sound (entry_in (words line.now)) }
{
    let (cell, text) = spelled(line)?;
    let place = cell.place()?;
    if !cell_texts::is_cell_text(text) {
        return None;
    }
    Some((place, text))
}

/// The first of some entries, if it is sound and stands behind a place.
fn first(bytes: &[u8], place: u16) -> Option<Front<'_>>
    requires { 0 < length bytes.now }
    ensures read { MatchOption result (behind place (entries_of bytes.now) ≡ None)
        (λ e. behind place (entries_of bytes.now) ≡ option_map (λ es. (cell_at e.place, e.text.now) ∷ es)
        (behind e.place (entries_of e.rest.now))) }
    ensures later { IfSome result (λ e. place < e.place) }
    ensures shorter { IfSome result (λ e. length e.rest.now < length bytes.now) }
{
    let (line, rest) = cut(bytes, b'\n');
    let rest = match rest {
        Some(rest) => rest,
        None => return None,
    };
    let (at, text) = match entry(line) {
        Some(entry) => entry,
        None => return None,
    };
    if at <= place {
        return None;
    }
    Some(Front {
        place: at,
        text,
        rest,
    })
}

/// Whether these bytes are sound entries, by row and then by column.
fn are_entries(bytes: &[u8]) -> bool
    ensures { result ≡ is_some (behind 0 (entries_of bytes.now)) }
{
    let mut rest = bytes;
    let mut place = 0;
    while !rest.is_empty() {
        match first(rest, place) {
            Some(entry) => {
                place = entry.place;
                rest = entry.rest;
            }
            None => return false,
        }
    }
    true
}

/// The texts of sound entries under the places of their cells.
fn collect(alloc: Global, bytes: &[u8]) -> Result<BTreeMap<u16, Vec<u8>>, EmbedFault>
    ensures read { IfOk result (λ m. behind 0 (entries_of bytes.now) ≡ Some (entries_at m.entries)) }
    ensures refused { IfErr result (λ e. IsSome (behind 0 (entries_of bytes.now)) → e ≡ EmbedFault.NoMemory) }
{
    let mut cells = BTreeMap::new(alloc);
    let mut rest = bytes;
    let mut place = 0;
    while !rest.is_empty() {
        match first(rest, place) {
            Some(entry) => {
                cells.insert(entry.place, Vec::from_slice(alloc, entry.text)?)?;
                place = entry.place;
                rest = entry.rest;
            }
            None => return Err(EmbedFault::BadContent),
        }
    }
    Ok(cells)
}

/// The texts of a table's stream, under the places of their cells.
///
/// Refused: `BadContent` where the bytes aren't a table's; then for want of memory.
pub fn read(alloc: Global, bytes: &[u8]) -> Result<BTreeMap<u16, Vec<u8>>, EmbedFault>
    ensures read { IfOk result (λ m. load_told (content_of Table bytes.now) ≡ Ok (table (entries_at m.entries))) }
    ensures refused { IfErr result (Refuses (load_told (content_of Table bytes.now))) }
{
    if !are_entries(bytes) {
        return Err(EmbedFault::BadContent);
    }
    collect(alloc, bytes)
}
