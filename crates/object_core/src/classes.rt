//! The class ids of the three kinds.

ghost use Rattle.object_core.specs.Kinds.{Drawing, Note, Table, class_of, class_with};
ghost use Rattle.std.specs.Prelude.{◌≡◌};

use tree_values::class_id::ClassId;

/// The class id whose first field ends in this byte, as it stands in files.
fn class_with(last: u8) -> ClassId
    ensures { result ≡ class_with last }
{
    ClassId::from_bytes([
        last, 0x2a, 0x1d, 0x6f, 0x4b, 0x3c, 0x5f, 0x4e, 0x8a, 0x9b, 0x0c, 0x1d, 0x2e, 0x3f, 0x40,
        0x51,
    ])
}

/// The class of notes, 6f1d2a01-3c4b-4e5f-8a9b-0c1d2e3f4051.
pub fn note() -> ClassId
    ensures { result ≡ class_of Note }
{
    class_with(1)
}

/// The class of tables, 6f1d2a02-3c4b-4e5f-8a9b-0c1d2e3f4051.
pub fn table() -> ClassId
    ensures { result ≡ class_of Table }
{
    class_with(2)
}

/// The class of drawings, 6f1d2a03-3c4b-4e5f-8a9b-0c1d2e3f4051.
pub fn drawing() -> ClassId
    ensures { result ≡ class_of Drawing }
{
    class_with(3)
}
