//! A history of values.

ghost use Rattle.std.specs.Borrow.{ftrue};
ghost use Rattle.std.specs.Prelude.{◌≡◌, List, [], ◌∷◌};

use std::marker::{Model, PhantomData};

/// Pairs of values, the newest first.
#[derive(Drop)]
pub struct Values<A, B> {
    of: PhantomData<(A, B)>,
    pub ghost items: { List (A × B) },
}

impl<A, B> Model for Values<A, B> {
    ghost also_owns = { λ _. ftrue };
}

impl<A, B> Values<A, B> {
    /// No values.
    pub fn new() -> Values<A, B>
        ensures { result.items ≡ [] }
    {
        Values { of: PhantomData }
    }

    /// The same with one more.
    pub fn and(&self, first: &A, second: &B) -> Values<A, B>
        ensures { result.items ≡ (first.now, second.now) ∷ self.now.items }
    {
        Values { of: PhantomData }
    }
}
