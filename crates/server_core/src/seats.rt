//! The objects of a server's open activations, each at a key of a slab. An activation keeps the key of its seat, and
//! the seat bears the number of its activation: so a key leads an activation to no seat but its own.

ghost use Rattle.std.specs.Prelude.{◌≡◌, Some, None, [], IsSome, OnOk, OnSome, option_copied};
ghost use Rattle.slab.specs.Slab.{HasRoomFor};
ghost use Rattle.server_core.specs.View.{KeepsOthers, seat_at};

use crate::server::Seat;
use slab::Slab;
use std::alloc::{AllocError, Global};

/// A seat, and the number of the activation that it is of.
#[derive(Drop)]
pub struct Owned {
    pub(crate) act: u32,
    pub(crate) seat: Seat,
}

/// The seats of the open activations.
#[derive(Drop)]
pub struct Seats {
    pub(crate) slab: Slab<Owned>,
}

impl Seats {
    /// No seats.
    pub(crate) fn new(alloc: Global) -> Seats
        ensures { result.slab.slots ≡ [] }
    {
        Seats {
            slab: Slab::new(alloc),
        }
    }

    /// Makes room for one more.
    ///
    /// Refused for want of memory alone.
    pub(crate) fn reserve(&mut self) -> Result<(), AllocError>
        ensures room { OnOk result (HasRoomFor self.new.slab 1) }
        ensures kept { self.new.slab.slots ≡ self.old.slab.slots }
    {
        self.slab.reserve(1)
    }

    /// The seat of an activation.
    pub(crate) fn get(&self, act: u32, key: Option<usize>) -> Option<&Seat>
        ensures { option_copied result ≡ seat_at self.now.slab.slots act key }
    {
        let Some(key) = key else {
            return None;
        };
        match self.slab.get(key) {
            Some(owned) if owned.act == act => Some(&owned.seat),
            _ => None,
        }
    }

    /// Takes the seat of an activation out, where it has one.
    pub(crate) fn take(&mut self, act: u32, key: Option<usize>) -> Option<Seat>
        ensures taken { result ≡ seat_at self.old.slab.slots act key }
        ensures others { KeepsOthers act self.old.slab.slots self.new.slab.slots }
        ensures room { OnSome result (HasRoomFor self.new.slab 1) }
    {
        if self.get(act, key).is_none() {
            return None;
        }
        let Some(key) = key else {
            return None;
        };
        match self.slab.try_remove(key) {
            Some(owned) => Some(owned.seat),
            None => None,
        }
    }

    /// Puts the seat of an activation where there is room for it. Its key comes back, none where there is no seat.
    pub(crate) fn put(&mut self, act: u32, seat: Option<Seat>) -> Option<usize>
        requires { IsSome seat → HasRoomFor self.old.slab 1 }
        ensures put { seat_at self.new.slab.slots act result ≡ seat }
        ensures others { KeepsOthers act self.old.slab.slots self.new.slab.slots }
    {
        match seat {
            Some(seat) => Some(self.slab.insert_reserved(Owned { act, seat })),
            None => None,
        }
    }
}
