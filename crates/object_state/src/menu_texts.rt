//! The menu texts that an object shows while it is active in place.
ghost use Rattle.std.specs.Prelude.{◌≡◌, Some, None, if◌then◌else◌, IsTrue};
ghost use Rattle.object_state.specs.MenuTexts.{is_menu_text};
ghost use Rattle.object_state.specs.Menus.{menus_of};

use crate::printable::are_printable;
use std::marker::Model;

/// The greatest length of a menu text, in bytes.
pub const MENU_TEXT_MAX: usize = 16;

/// A menu text: at most 16 bytes of printable ASCII (32 to 126), kept inline.
#[derive(Clone, Copy)]
pub struct MenuText {
    bytes: [u8; MENU_TEXT_MAX],
    len: u8,
}

impl Model for MenuText {
    ghost use Rattle.std.specs.Prelude.{ℕ, List, take};

    ghost Value = { List ℕ };

    ghost use Rattle.object_state.specs.MenuInside.{IsInline, padded, padded-take};

    ghost view = { λ t. take t.len t.bytes };

    ghost invariant = { IsInline };

    ghost inverse = { padded };

    ghost inverse_ok = { padded-take };
}

impl MenuText {
    /// The text of these bytes; none where they are more than 16, or one isn't printable ASCII.
    pub fn new(text: &[u8]) -> Option<MenuText>
        ensures { result ≡ (if is_menu_text text.now then Some text.now else None) }
    {
        if !is_menu_text(text) {
            return None;
        }
        let mut bytes = [0; MENU_TEXT_MAX];
        bytes[..text.len()].copy_from_slice(text);
        Some(MenuText {
            bytes,
            len: text.len() as u8,
        })
    }

    /// The bytes of the text.
    pub fn as_bytes(&self) -> &[u8]
        ensures text { result.now ≡ self.now }
        ensures shape { IsTrue (is_menu_text self.now) }
    {
        &self.bytes[..self.len as usize]
    }
}

/// The menus that an object adds to its frame's menu bar while it holds the frame: a text for each
/// of the groups Edit, Object and Help (IOleInPlaceFrame::InsertMenus).
#[derive(Clone, Copy)]
pub struct Menus {
    /// Group 1, Edit.
    pub edit: MenuText,
    /// Group 3, Object.
    pub object: MenuText,
    /// Group 5, Help.
    pub help: MenuText,
}

impl Menus {
    /// The menus of these texts; none where one of them is longer than 16 bytes or has a byte that
    /// isn't printable ASCII.
    pub fn new(edit: &[u8], object: &[u8], help: &[u8]) -> Option<Menus>
        ensures { result ≡ menus_of edit.now object.now help.now }
    {
        let edit = MenuText::new(edit)?;
        let object = MenuText::new(object)?;
        let help = MenuText::new(help)?;
        Some(Menus { edit, object, help })
    }
}

// Whether the bytes are those of a menu text.
fn is_menu_text(text: &[u8]) -> bool
    ensures { result ≡ is_menu_text text.now }
{
    text.len() <= MENU_TEXT_MAX && are_printable(text)
}
