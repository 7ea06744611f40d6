//! What a folder tells of its storage beside its children.

ghost use Rattle.folder_commands.specs.PackedNotes.{line_read, notes_read};
ghost use Rattle.std.specs.Prelude.{◌≡◌};
ghost use Rattle.uuid.specs.Text.{parsed};

use text_words::words::{Pieces, number};
use tree_values::class_id::ClassId;
use uuid::Uuid;

/// The class id and the state bits that the file of a folder tells of its storage; none where it is no such file.
pub fn read_notes(text: &[u8]) -> Option<(ClassId, u32)>
    ensures { result ≡ notes_read text.now }
{
    let mut lines = Pieces::new(text, b'\n');
    let (Some(line), Some(rest), None) = (
        lines.next_piece(),
        lines.next_piece(),
        lines.next_piece(),
    ) else {
        return None;
    };
    if !rest.is_empty() {
        return None;
    }
    read_line(line)
}

/// What the line of such a file tells.
fn read_line(line: &[u8]) -> Option<(ClassId, u32)>
    ensures { result ≡ line_read line.now }
{
    let mut words = Pieces::new(line, b' ');
    let (Some(class), Some(state), None) = (
        words.next_piece(),
        words.next_piece(),
        words.next_piece(),
    ) else {
        return None;
    };
    let Some(id) = id_of(class) else {
        return None;
    };
    let Some(state) = number(state) else {
        return None;
    };
    Some((ClassId::from_bytes(id.to_bytes_le()), state))
}

/// The id that a word spells.
fn id_of(word: &[u8]) -> Option<Uuid>
    ensures { result ≡ parsed word.now }
{
    match Uuid::try_parse_ascii(word) {
        Ok(id) => Some(id),
        Err(_) => None,
    }
}
