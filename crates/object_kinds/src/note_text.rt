//! Changes of a note's text.

ghost use Rattle.object_core.specs.Content.{is_note_text};
ghost use Rattle.std.specs.List.{list_all};
ghost use Rattle.std.specs.Prelude.{◌+◌, ◌++◌, ◌≡◌, ◌≤◌, OnErr, OnOk, drop, length, take};

use object_state::is_printable;
use std::alloc::AllocError;

/// Whether all characters are printable or line feeds.
pub fn is_note_text(text: &[u8]) -> bool
    ensures { result ≡ list_all is_note_text text.now }
{
    text.iter().all(|c| is_printable(*c) || *c == b'\n')
}

/// Puts more into a text, at a place.
///
/// Refused for want of memory alone. Then the text is as before.
pub fn insert(text: &mut Vec<u8>, place: usize, more: &[u8]) -> Result<(), AllocError>
    requires { place ≤ length text.old.items }
    ensures inserted { OnOk result (text.new.items ≡ take place text.old.items ++ more.now
        ++ drop place text.old.items) }
    ensures kept { OnErr result (text.new.items ≡ text.old.items) }
{
    text.extend_from_slice(more)?;
    text[place..].rotate_right(more.len());
    Ok(())
}

/// Takes so many characters out of a text, from a place on.
pub fn delete(text: &mut Vec<u8>, place: usize, count: usize)
    requires { place + count ≤ length text.old.items }
    ensures { text.new.items ≡ take place text.old.items ++ drop (place + count) text.old.items }
{
    text[place..].rotate_left(count);
    let left = text.len() - count;
    text.truncate(left);
}
