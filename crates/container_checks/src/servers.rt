//! The servers that a container started.

ghost use Rattle.std.specs.Prelude.{◌≡◌, ◌+◌, ◌++◌, [], ◌∷◌, OnErr, OnOk, false, length, true};
ghost use Rattle.container_model.specs.Record.{count_alive, is_unreaped};
ghost use Rattle.message_values.specs.Found.{nth, set_nth};

use crate::lookups::place;
use std::alloc::{AllocError, Global};
use std::marker::Model;

/// The servers that were started, by their incarnations from 1: whether each is reaped.
#[derive(Drop)]
pub struct Servers {
    reaped: Vec<bool>,
    // how many aren't reaped
    alive: usize,
}

impl Model for Servers {
    ghost use Rattle.std.specs.Prelude.{◌≡◌, Bool, List};
    ghost use Rattle.container_model.specs.Record.{count_alive};

    ghost Value = { List Bool };

    ghost view = { λ s. s.reaped.items };

    ghost invariant = { λ s. s.alive ≡ count_alive s.reaped.items };
}

impl Servers {
    /// No servers.
    pub fn new(alloc: Global) -> Servers
        ensures { result ≡ [] }
    {
        Servers {
            reaped: Vec::new(alloc),
            alive: 0,
        }
    }

    /// How many were started.
    pub fn len(&self) -> usize
        ensures { result ≡ length self.now }
    {
        self.reaped.len()
    }

    /// How many aren't reaped.
    pub fn count_alive(&self) -> usize
        ensures { result ≡ count_alive self.now }
    {
        self.alive
    }

    /// Whether the server of this incarnation was started and isn't reaped.
    pub fn is_alive(&self, inc: u32) -> bool
        ensures { result ≡ is_unreaped (nth self.now inc) }
    {
        match place(&self.reaped, inc) {
            Some(place) => !self.reaped[place],
            None => false,
        }
    }

    #[tactic(auto, using(crate::proofs::ServersCounted::alive_few, crate::proofs::ServersCounted::alive_more))]
    /// One more server is started.
    ///
    /// Refused for want of memory alone. Then nothing changes.
    pub fn start(&mut self) -> Result<(), AllocError>
        ensures started { OnOk result (self.new ≡ self.old ++ false ∷ []) }
        ensures kept { OnErr result (self.new ≡ self.old) }
    {
        self.reaped.push(false)?;
        self.alive += 1;
        Ok(())
    }

    /// The server of this incarnation is reaped.
    pub fn reap(&mut self, inc: u32)
        requires { is_unreaped (nth self.old inc) ≡ true }
        ensures { self.new ≡ set_nth self.old inc true }
    {
        if let Some(place) = place(&self.reaped, inc) {
            self.reaped[place] = true;
            self.alive -= 1;
        }
    }
}
