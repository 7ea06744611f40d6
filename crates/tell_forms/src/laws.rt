//! Laws of listings.

ghost use Rattle.text_words.specs.Spelled.{class_text};
ghost use Rattle.std.specs.Prelude.{◌≡◌, Some};
ghost use Rattle.uuid.specs.Parts.{swap_fields};
ghost use Rattle.uuid.specs.Text.{parsed};

use tree_values::class_id::ClassId;
use uuid::Uuid;

/// The text of a class id in a listing is read back by `uuid` as the id, whose first three fields stand in files with
/// their lowest bytes first.
pub fn class_text_is_read_back(class: &ClassId)
    ensures { parsed (class_text class.now) ≡ Some (swap_fields class.now) }
{
    let mut buffer = Uuid::encode_buffer();
    let id = Uuid::from_bytes_le(*class.as_bytes());
    let _ = id.hyphenated().encode_lower(&mut buffer);
}
