//! Class ids.

ghost use Rattle.std.specs.Prelude.{◌≡◌};

use std::marker::Model;

/// A class id, the 16 bytes of a GUID as they stand in files (MS-DTYP 2.3.4.2).
#[derive(Clone, Copy, PartialEq, Eq)]
pub struct ClassId {
    bytes: [u8; 16],
}

impl Model for ClassId {
    ghost use Rattle.std.specs.Prelude.{List, ℕ};

    ghost Value = { List ℕ };

    ghost view = { λ c. c.bytes };

    ghost inverse = { λ bytes. record { bytes = bytes } };
}

impl ClassId {
    /// The class id of these bytes.
    pub fn from_bytes(bytes: [u8; 16]) -> ClassId
        ensures { result ≡ bytes }
    {
        ClassId { bytes }
    }

    /// Its bytes.
    pub fn as_bytes(&self) -> &[u8; 16]
        ensures { result.now ≡ self.now }
    {
        &self.bytes
    }
}
