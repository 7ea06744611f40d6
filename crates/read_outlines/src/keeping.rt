//! What an outline keeps of what was read.

ghost use Rattle.cfb_names.specs.Names.{key, key_eq};
ghost use Rattle.read_outlines.specs.Keeping.{below, on_path, room, wanted};
ghost use Rattle.std.specs.Prelude.{◌≡◌, false, true};

use cfb_names::name::{Name, key};

/// What an outline keeps of what was read: whoever looks for one stream needs only what leads to it.
#[derive(Clone, Copy)]
pub enum Keep<'p> {
    /// All of it.
    All,
    /// What stands at this path, and what stands on the way to it.
    Path(&'p [Name]),
    /// Nothing.
    Nothing,
}

/// Whether the lengths or the last characters of two names differ, upper and lower case alike: then their keys do, and
/// needn't be made. No clause says that it tells every such pair.
#[inline(always)]
fn differ_in_end(one: &Name, other: &Name) -> bool
    ensures { result ≡ true → key_eq (key one.now) (key other.now) ≡ false }
{
    let one = one.as_bytes();
    let other = other.as_bytes();
    if one.len() != other.len() {
        return true;
    }
    let last = one.len() - 1;
    one[last].to_ascii_uppercase() != other[last].to_ascii_uppercase()
}

/// What of a child of this name lies on a path.
fn along<'p>(path: &'p [Name], name: &Name) -> Keep<'p>
    ensures { wanted result ≡ below name.now (on_path path.now) }
{
    match path {
        [] => Keep::Nothing,
        [first, rest @ ..] => {
            if differ_in_end(first, name) {
                return Keep::Nothing;
            }
            if key(first).cmp(&key(name)).is_eq() {
                return Keep::Path(rest);
            }
            Keep::Nothing
        }
    }
}

impl<'p> Keep<'p> {
    /// What is kept of a child of this name.
    #[inline(always)]
    pub fn below(self, name: &Name) -> Keep<'p>
        ensures { wanted result ≡ below name.now (wanted self.entry) }
    {
        match self {
            Keep::All => Keep::All,
            Keep::Path(path) => along(path, name),
            Keep::Nothing => Keep::Nothing,
        }
    }

    /// For how many of so many children room is made at once.
    pub fn room(self, count: usize) -> usize
        ensures { result ≡ room count (wanted self.entry) }
    {
        match self {
            Keep::All => count,
            _ => 0,
        }
    }
}
