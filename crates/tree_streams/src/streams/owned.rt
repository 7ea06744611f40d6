//! Streams that are taken apart and put together, so that nothing that they hold is copied.

use super::{NamedStream, Streams};

impl Streams {
    ghost use Rattle.std.specs.Prelude.{◌≡◌};
    ghost use Rattle.tree_streams.specs.Streams.{AreInOrder, Orders};

    /// The streams as a vector. It takes no memory.
    pub fn into_vec(self) -> Vec<NamedStream>
        ensures streams { result.items ≡ self }
        ensures in_order { AreInOrder self }
    {
        self.items
    }

    /// The streams that a vector has, none where they aren't in name order. It takes no memory.
    pub fn from_vec(items: Vec<NamedStream>) -> Option<Streams>
        ensures { Orders result items.items }
    {
        for at in 1..items.len() {
            if !items[at - 1].name.cmp(&items[at].name).is_lt() {
                return None;
            }
        }
        Some(Streams { items })
    }
}
