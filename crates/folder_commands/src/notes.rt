//! What a folder tells of its storage beside its children.

ghost use Rattle.folder_commands.specs.Notes.{is_plain, notes_text};
ghost use Rattle.std.specs.Prelude.{◌≡◌, IfOk};

use std::alloc::{AllocError, Global};
use text_spelling::writing::{push_class, push_numbered};
use tree_values::class_id::ClassId;

/// The name of the file of a folder that tells the class id and the state bits of its storage. No storage or stream
/// stands under it, as no name has a `!` (MS-CFB 2.6.1).
pub const NOTES: &str = "!storage";

/// Whether a class id and state bits are zero. The folder of a storage of such has no file that tells them.
pub fn is_plain(class: &ClassId, state: u32) -> bool
    ensures { result ≡ is_plain class.now state }
{
    *class == ClassId::from_bytes([0; 16]) && state == 0
}

/// What the file of a folder tells of a storage of this class id and these state bits: a line of both.
pub fn notes(alloc: Global, class: &ClassId, state: u32) -> Result<Vec<u8>, AllocError>
    ensures { IfOk result (λ text. text.items ≡ notes_text class.now state) }
{
    let mut text = Vec::new(alloc);
    push_class(&mut text, class)?;
    push_numbered(alloc, &mut text, " ", state as usize)?;
    text.push(b'\n')?;
    Ok(text)
}
