//! The menus of the three kinds.

ghost use Rattle.object_core.specs.Kinds.{Drawing, Note, Table, menus_of};
ghost use Rattle.std.specs.Prelude.{◌≡◌};

use object_state::Menus;

/// The menus of a note: Edit, Note, Help.
pub fn note() -> Menus
    ensures { result ≡ menus_of Note }
{
    match Menus::new(b"Edit", b"Note", b"Help") {
        Some(menus) => menus,
        None => unreachable!(),
    }
}

/// The menus of a table: Edit, Table, Help.
pub fn table() -> Menus
    ensures { result ≡ menus_of Table }
{
    match Menus::new(b"Edit", b"Table", b"Help") {
        Some(menus) => menus,
        None => unreachable!(),
    }
}

/// The menus of a drawing: Edit, Draw, Help.
pub fn drawing() -> Menus
    ensures { result ≡ menus_of Drawing }
{
    match Menus::new(b"Edit", b"Draw", b"Help") {
        Some(menus) => menus,
        None => unreachable!(),
    }
}
