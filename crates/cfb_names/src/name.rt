//! Names of directory entries (MS-CFB 2.6.1, 2.6.4).

ghost use Rattle.cfb_names.specs.Names.{is_forbidden, key, name_cmp, name_read, root_name, IsName, KeysAgree};
ghost use Rattle.cfb_names.specs.View.{name_held, units_of, IsHeld};
ghost use Rattle.std.specs.Char.{to_ascii_uppercase};
ghost use Rattle.std.specs.List.{list_any};
ghost use Rattle.std.specs.Prelude.{◌≡◌, ◌≤◌, length, map, nat_le};

use crate::fault::DirFault;
use crate::key::Key;
use std::cmp::Ordering;
use std::marker::Model;

/// How many characters a name may have.
pub const LONGEST: usize = 31;

/// A name: 1 to 31 characters of ASCII, none of them zero or one of `/ \ : !`. It takes no memory.
#[derive(Drop)]
pub struct Name {
    // The length, the characters, and zeros.
    units: [u8; 32],
}

impl Model for Name {
    ghost use Rattle.std.specs.Prelude.{List, ℕ, ◌≡◌};
    ghost use Rattle.cfb_names.specs.Names.{IsName};
    ghost use Rattle.cfb_names.specs.View.{name_held, IsHeld};

    ghost Value = { List ℕ };

    ghost view = { λ n. name_held n.units };

    ghost invariant = { λ n. IsHeld n.units };
}

/// Whether a name can't hold a character: zero, or one of `/ \ : !`.
pub fn is_forbidden(c: u8) -> bool
    ensures { result ≡ is_forbidden c }
{
    c == 0 || c == b'/' || c == b'\\' || c == b':' || c == b'!'
}

/// Whether one of the bytes is a character that a name can't hold.
fn has_forbidden(bytes: &[u8]) -> bool
    ensures { result ≡ list_any is_forbidden bytes.now }
{
    bytes.iter().any(|c| is_forbidden(*c))
}

/// Whether one of the bytes is past ASCII.
fn is_past_ascii(bytes: &[u8]) -> bool
    ensures { result ≡ list_any (nat_le 128) bytes.now }
{
    bytes.iter().any(|c| 128 <= *c)
}

/// How a name lies in its bytes.
fn spelled(bytes: &[u8]) -> [u8; 32]
    requires { length bytes.now ≤ 31 }
    ensures { result ≡ units_of bytes.now }
{
    let mut units = [0; 32];
    units[0] = bytes.len() as u8;
    units[1..=bytes.len()].copy_from_slice(bytes);
    units
}

/// The bytes in upper case.
fn upper(units: &[u8; 32]) -> [u8; 32]
    ensures { result ≡ map to_ascii_uppercase units.now }
{
    let mut upper = *units;
    upper.make_ascii_uppercase();
    upper
}

/// Names are ordered as their keys are, so children may be found and walked by keys.
pub fn keys_agree()
    ensures { KeysAgree }
{}

// A type is read with all of its methods by whoever holds a value of it. So what leads from names to faults and keys,
// which few need who hold names, are no methods.
/// The name of these characters.
///
/// Refused, in this order: `NameEmpty`; `NameTooLong` for more than 31; `NameNotAscii` for one past 127;
/// `NameForbidden` for a zero or one of `/ \ : !` (MS-CFB 2.6.1).
pub fn named(bytes: &[u8]) -> Result<Name, DirFault>
    ensures { result ≡ name_read bytes.now }
{
    if bytes.is_empty() {
        return Err(DirFault::NameEmpty);
    }
    if bytes.len() > LONGEST {
        return Err(DirFault::NameTooLong);
    }
    if is_past_ascii(bytes) {
        return Err(DirFault::NameNotAscii);
    }
    if has_forbidden(bytes) {
        return Err(DirFault::NameForbidden);
    }
    Ok(Name {
        units: spelled(bytes),
    })
}

/// What children are found and ordered by: the length, the characters in upper case, and zeros.
pub fn key(name: &Name) -> Key
    ensures { result ≡ key name.now }
{
    Key::new(upper(&name.units))
}

impl Name {
    /// The name that is kept so: its length, its characters, and zeros. Nothing is tested.
    pub fn from_units(units: [u8; 32]) -> Name
        requires { IsHeld units }
        ensures { result ≡ name_held units }
    {
        Name { units }
    }

    /// The name of the root, `Root Entry` (MS-CFB 2.6.2).
    pub fn root() -> Name
        ensures { result ≡ root_name }
    {
        Name {
            units: spelled(b"Root Entry"),
        }
    }

    /// An equal name.
    pub fn copy(&self) -> Name
        ensures { result ≡ self.now }
    {
        Name { units: self.units }
    }

    /// The number of its characters.
    pub fn len(&self) -> usize
        ensures { result ≡ length self.now }
    {
        usize::from(self.units[0])
    }

    /// Its characters, as they were written.
    pub fn as_bytes(&self) -> &[u8]
        ensures spelled { result.now ≡ self.now }
        ensures valid { IsName self.now }
    {
        let len = self.units[0] as usize;
        &self.units[1..=len]
    }

    /// The order of names: the shorter one is less, and of two that are equally long the one whose characters in upper
    /// case are less (MS-CFB 2.6.4).
    pub fn cmp(&self, other: &Name) -> Ordering
        ensures { result ≡ name_cmp self.now other.now }
    {
        key(self).cmp(&key(other))
    }
}
