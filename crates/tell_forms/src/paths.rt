//! Paths, as bytes and as texts.

ghost use Rattle.std.specs.Prelude.{◌≡◌, ◌++◌, ◌∷◌, [], IfOk, string_bytes};
ghost use Rattle.text_words.specs.Spelled.{name_text};

use cfb_names::name::Name;
use std::alloc::{AllocError, Global};
use text_spelling::writing::push_name;

/// The bytes of the path of a name behind those that stand before it.
pub(crate) fn path_bytes(alloc: Global, within: &[u8], name: &Name) -> Result<Vec<u8>, AllocError>
    ensures { IfOk result (λ path. path.items ≡ within.now ++ name_text name.now) }
{
    let mut path = Vec::from_slice(alloc, within)?;
    push_name(&mut path, name.as_bytes())?;
    Ok(path)
}

/// The path of a name behind the text that stands before it.
pub(crate) fn path_text(alloc: Global, within: &str, name: &Name) -> Result<String, AllocError>
    ensures { IfOk result (λ path. string_bytes path ≡ within.now ++ name_text name.now) }
{
    let mut path = Vec::from_slice(alloc, within.as_bytes())?;
    push_name(&mut path, name.as_bytes())?;
    match String::from_utf8(path) {
        Ok(path) => Ok(path),
        Err(_) => unreachable!(),
    }
}
