//! The objects of a container.

ghost use Rattle.std.specs.Prelude.{◌≡◌, ◌<◌, ◌≤◌, ◌+◌, ◌++◌, ◌∷◌, [], OnErr, OnOk, length, map, remove, vec_capacity};
ghost use Rattle.std.specs.Prelude.{vec_len};
ghost use Rattle.std.specs.List.Sorted.{IsStrictlySortedBy};
ghost use Rattle.std.specs.Ordering.{nat_cmp};
ghost use Rattle.std.proofs.Props.{props};

use container_model::record::Object;
use std::alloc::{AllocError, Global};

/// Objects, by rising number. One is found by its number in as many steps as the list can be halved.
#[derive(Drop)]
pub struct Objects {
    /// The objects, in the order in which they were made.
    pub list: Vec<Object>,
    pub ghost rising: { IsStrictlySortedBy nat_cmp (map (λ o. o.number) list.items) } by { Prim.hlevel props },
}

impl Objects {
    /// No objects.
    pub fn new(alloc: Global) -> Objects
        ensures { result.list.items ≡ [] }
    {
        Objects {
            list: Vec::new(alloc),
        }
    }

    /// One more, whose number is past all others.
    ///
    /// Refused for want of memory alone. Then nothing changes.
    pub fn push(&mut self, object: Object) -> Result<(), AllocError>
        requires { IsStrictlySortedBy nat_cmp (map (λ o. o.number) self.old.list.items ++ object.number ∷ []) }
        ensures items { OnOk result (self.new.list.items ≡ self.old.list.items ++ object ∷ []) }
        ensures kept { OnErr result (self.new.list.items ≡ self.old.list.items) }
    {
        self.list.push(object)?;
        Ok(())
    }

    /// Room for so many more. The objects stay as they are.
    ///
    /// Refused for want of memory alone.
    pub fn reserve(&mut self, count: usize) -> Result<(), AllocError>
        ensures kept { self.new.list.items ≡ self.old.list.items }
        ensures places { OnOk result (vec_len self.new.list + count ≤ vec_capacity self.new.list) }
    {
        self.list.reserve(count)
    }

    /// More of them, whose numbers rise past all others, for which there is room. It takes no memory.
    pub fn append_reserved(&mut self, more: Vec<Object>)
        requires rising { IsStrictlySortedBy nat_cmp
            (map (λ o. o.number) self.old.list.items ++ map (λ o. o.number) more.items) }
        requires places { vec_len self.old.list + vec_len more ≤ vec_capacity self.old.list }
        ensures { self.new.list.items ≡ self.old.list.items ++ more.items }
    {
        for object in more {
            self.list.push_reserved(object);
        }
    }

    /// The object that stands there goes.
    pub fn remove(&mut self, place: usize)
        requires { place < length self.old.list.items }
        ensures { self.new.list.items ≡ remove self.old.list.items place }
    {
        let _ = self.list.remove(place);
    }
}
