//! What the journal of a disk tells when it is opened.

ghost use Rattle.store_core.specs.Steps.{new_size};
ghost use Rattle.std.specs.Prelude.{◌≡◌};

/// What an open journal makes of the document area.
#[derive(Clone, Copy)]
pub(crate) enum Change {
    /// It holds a whole document of this length.
    Whole(u32),
    /// It holds so many blocks of a document of this length, in this order.
    Blocks(u32, u32),
}

impl Change {
    /// The document's new length.
    pub(crate) fn size(self) -> u32
        ensures { result ≡ new_size self }
    {
        match self {
            Change::Whole(size) => size,
            Change::Blocks(_, size) => size,
        }
    }
}

/// What `open` finds in the journal.
#[derive(Clone, Copy)]
pub(crate) enum Found {
    /// A gate that isn't open, or no byte at all, so the document area counts.
    Closed,
    /// An open gate with no room for a length behind it: the document area counts, and the gate has to be closed before
    /// the next commit.
    Short,
    /// An open gate, and this behind it.
    Open(Change),
}
