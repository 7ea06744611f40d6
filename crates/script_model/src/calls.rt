//! A history of calls: of each its numbers and its bytes.

ghost use Rattle.script_model.specs.Noted.{Noted, noted};
ghost use Rattle.std.specs.Borrow.{ftrue};
ghost use Rattle.std.specs.Prelude.{◌≡◌, List, [], ◌∷◌};

use std::marker::{Model, PhantomData};

/// Calls, the newest first.
#[derive(Drop)]
pub struct Calls {
    marker: PhantomData<u8>,
    pub ghost calls: { List Noted },
}

impl Model for Calls {
    ghost also_owns = { λ _. ftrue };
}

impl Calls {
    /// No calls.
    pub fn new() -> Calls
        ensures { result.calls ≡ [] }
    {
        Calls {
            marker: PhantomData,
        }
    }

    /// One more call: what it was, of whom, and 1 for success; and its bytes.
    pub fn note(&mut self, _numbers: &[u64], _bytes: &[u8])
        ensures { self.new.calls ≡ noted _numbers.now _bytes.now ∷ self.old.calls }
    {}
}
