//! A server in memory, at the other end of a link in memory.

ghost use Rattle.server_links.specs.View.{IsStarted};
ghost use Rattle.std.specs.Prelude.{◌≤◌, length};

use crate::wire::{Inward, Outward};
use object_core::embedded::Embedded;
use server_links::link::{Pause, serve_link};
use server_links::serving::Serving;
use std::alloc::{AllocError, Global};

/// The most activations of a server, and writes of an activation.
const MOST_NUMBERS: u32 = 1_000_000;

/// The server, and its link.
#[derive(Drop)]
pub(crate) struct Server {
    inc: u32,
    serving: Serving,
    inward: Inward,
    outward: Outward,
    ghost started: { IsStarted serving },
}

impl Server {
    /// The server of a session and an incarnation, with a link on which nothing is on its way.
    pub(crate) fn new(alloc: Global, session: u32, inc: u32) -> Result<Server, AllocError> {
        let mut serving = Serving::new(alloc);
        serving.start(alloc, session, inc, MOST_NUMBERS)?;
        Ok(Server {
            inc,
            serving,
            inward: Inward::new(alloc),
            outward: Outward::new(alloc),
        })
    }

    /// Its incarnation.
    pub(crate) fn inc(&self) -> u32 {
        self.inc
    }

    /// Begins another link.
    pub(crate) fn connect(&mut self, alloc: Global) {
        self.inward = Inward::new(alloc);
        self.outward = Outward::new(alloc);
        self.serving.begin(alloc);
    }

    /// Sends it bytes, which it hasn't read yet.
    pub(crate) fn send(&mut self, bytes: &[u8]) -> Result<(), AllocError> {
        self.inward.send(bytes)
    }

    /// What came from it, as much as there is room for.
    pub(crate) fn take(&mut self, into: &mut [u8]) -> usize
        ensures { result ≤ length into.new }
    {
        self.outward.take(into)
    }

    /// Lets it go on until it has read all that was sent, or wants an object.
    pub(crate) fn serve(&mut self, alloc: Global) -> Result<Pause, AllocError> {
        let pause = serve_link(
            alloc,
            &mut self.serving,
            &mut self.inward,
            &mut self.outward,
        )?;
        if self.outward.lacks() {
            return Err(AllocError);
        }
        Ok(pause)
    }

    /// Offers it an object.
    pub(crate) fn offer(
        &mut self,
        alloc: Global,
        boxed: Box<dyn Embedded>,
    ) -> Result<(), AllocError> {
        self.serving.offer(alloc, boxed)
    }
}
