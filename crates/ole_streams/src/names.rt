//! The names of a document's own streams and storages.

ghost use Rattle.std.specs.Prelude.{◌≡◌, ◌<◌, ◌^◌};
ghost use Rattle.ole_model.specs.DocTree.{LAYOUT, ROOT_CLASS, SESSION, decimal, object_name};

use cfb_names::name::{Name, named};
use tree_values::class_id::ClassId;

/// The class id of a document's root.
pub fn root_class() -> ClassId
    ensures { result ≡ ROOT_CLASS }
{
    ClassId::from_bytes([
        0x00, 0x2a, 0x1d, 0x6f, 0x4b, 0x3c, 0x5f, 0x4e, 0x8a, 0x9b, 0x0c, 0x1d, 0x2e, 0x3f, 0x40,
        0x51,
    ])
}

/// The name of the stream `Layout`.
pub fn layout() -> Name
    ensures { result ≡ LAYOUT }
{
    match named(b"Layout") {
        Ok(name) => name,
        Err(_) => unreachable!(),
    }
}

/// The name of the stream `Session`.
pub fn session() -> Name
    ensures { result ≡ SESSION }
{
    match named(b"Session") {
        Ok(name) => name,
        Err(_) => unreachable!(),
    }
}

/// The name of an object's storage: `Obj` and its number, which is from 1 to 99.
pub fn object(number: usize) -> Name
    requires { number < 100 }
    ensures { result ≡ object_name number }
{
    let digit = number as u8;
    let name = if digit < 10 {
        named(&[b'O', b'b', b'j', b'0' + digit])
    } else {
        named(&[b'O', b'b', b'j', b'0' + digit / 10, b'0' + digit % 10])
    };
    match name {
        Ok(name) => name,
        Err(_) => unreachable!(),
    }
}
