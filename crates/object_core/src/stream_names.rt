//! The names of the streams that hold the contents of the three kinds.

ghost use Rattle.object_core.specs.Content.{stream_name};
ghost use Rattle.object_core.specs.Kinds.{Drawing, Note, Table, empty};
ghost use Rattle.std.specs.Prelude.{◌≡◌};

use cfb_names::name::{Name, named};

/// The stream of a note, `Text`.
pub fn note() -> Name
    ensures { result ≡ stream_name (empty Note) }
{
    match named(b"Text") {
        Ok(name) => name,
        Err(_) => unreachable!(),
    }
}

/// The stream of a table, `Cells`.
pub fn table() -> Name
    ensures { result ≡ stream_name (empty Table) }
{
    match named(b"Cells") {
        Ok(name) => name,
        Err(_) => unreachable!(),
    }
}

/// The stream of a drawing, `Shapes`.
pub fn drawing() -> Name
    ensures { result ≡ stream_name (empty Drawing) }
{
    match named(b"Shapes") {
        Ok(name) => name,
        Err(_) => unreachable!(),
    }
}
