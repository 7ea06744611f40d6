//! Keys of names, by which children are found and ordered (MS-CFB 2.6.4).

ghost use Rattle.cfb_names.specs.Names.{key_cmp};
ghost use Rattle.cfb_names.specs.Numbers.{AreBytes, eight};
ghost use Rattle.std.specs.Cmp.{partial_equiv_from_equiv};
ghost use Rattle.std.specs.Cmp.Lexicographic.{nat_list_cmp_total, nat_list_eq_equiv, pointwise, slice_cmp, texts_po};
ghost use Rattle.std.specs.Cmp.Lexicographic.{texts_ties};
ghost use Rattle.std.specs.Ordering.{nat_cmp};
ghost use Rattle.std.specs.Prelude.{◌+◌, ◌≡◌, ◌≤◌, Some, nat_eq, refl};

use std::cmp::Ordering;
use std::marker::Model;

/// The key of a name: 32 bytes, of which the first that differs decides which key is less.
#[derive(Clone, Copy)]
pub struct Key {
    units: [u8; 32],
}

impl Model for Key {
    ghost use Rattle.std.specs.Prelude.{List, ℕ};

    ghost Value = { List ℕ };

    ghost view = { λ k. k.units };

    ghost inverse = { λ units. record { units = units } };
}

/// Eight bytes of a key as a number, of which the first is worth most. Where they stand is known when this is compiled,
/// and each half is small enough for its sum to be seen not to overflow: so nothing is tested when it runs.
fn number<const AT: usize>(units: &[u8; 32]) -> u64
    requires { AT + 8 ≤ 32 }
    ensures number { result ≡ eight units.now AT }
    ensures bytes { AreBytes units.now }
{
    let high = u32::from_be_bytes([units[AT], units[AT + 1], units[AT + 2], units[AT + 3]]);
    let low = u32::from_be_bytes([units[AT + 4], units[AT + 5], units[AT + 6], units[AT + 7]]);
    high as u64 * 0x1_0000_0000 + low as u64
}

/// The order of keys, eight bytes at a time: names differ early, so nearly always the first eight decide.
fn order(one: &[u8; 32], other: &[u8; 32]) -> Ordering
    ensures { result ≡ key_cmp one.now other.now }
{
    let first = number::<0>(one).cmp(&number::<0>(other));
    if first.is_ne() {
        return first;
    }
    let second = number::<8>(one).cmp(&number::<8>(other));
    if second.is_ne() {
        return second;
    }
    let third = number::<16>(one).cmp(&number::<16>(other));
    if third.is_ne() {
        return third;
    }
    number::<24>(one).cmp(&number::<24>(other))
}

impl Key {
    /// The key of these bytes.
    pub fn new(units: [u8; 32]) -> Key
        ensures { result ≡ units }
    {
        Key { units }
    }
}

// Keys are equal, and ordered, as their bytes are.
impl PartialEq for Key {
    ghost eq = { pointwise nat_eq };

    ghost laws = { partial_equiv_from_equiv nat_list_eq_equiv };

    fn eq(&self, other: &Key) -> bool {
        self.units == other.units
    }
}

impl Eq for Key {
    ghost laws = { nat_list_eq_equiv };
}

impl PartialOrd for Key {
    ghost partial_cmp = { λ x y. Some (slice_cmp nat_cmp x y) };

    ghost laws = { texts_po };

    fn partial_cmp(&self, other: &Key) -> Option<Ordering> {
        Some(self.cmp(other))
    }
}

impl Ord for Key {
    ghost cmp = { slice_cmp nat_cmp };

    ghost total = { nat_list_cmp_total };

    ghost matches_partial_cmp = { λ x y. refl };

    ghost matches_eq = { texts_ties };

    fn cmp(&self, other: &Key) -> Ordering {
        order(&self.units, &other.units)
    }
}
